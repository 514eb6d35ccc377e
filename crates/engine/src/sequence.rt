// Events in order, for a run and for a single step. While they come, the registers, the bus interface and the pixels by value are held apart, and a
// stretch of display bytes is taken at once. It alone calls the command rows, so that they are compiled into it.
ghost use Rattle.std.specs.Prelude.{◌≡◌, ◌<◌};
ghost use Rattle.refusals.specs.Numbers.{number_of};
ghost use Rattle.registers.specs.State.{state};
ghost use Rattle.commands.specs.declared.answer.CommandAnswer.TheVariants.{Unknown, OutOfRange};
ghost use Rattle.engine.specs.Loop.{brings_content, content_end};
ghost use Rattle.engine.specs.PastEntry.{run_past_entry, tally_past_entry};
ghost use Rattle.engine.specs.Run.{outcome};

use crate::event::Event;
use crate::run::Ran;
use commands::answer::CommandAnswer;
use phases::interface::Interface;
use refusals::Refusal;
use registers::{Chip, Phase};

fn brings_content(event: u16, phase: Phase) -> bool
    ensures { result ≡ brings_content event phase }
{
    (event < 256) & phases::byte::awaits_content(phase)
}

fn content_end(phase: Phase, here: usize, end: usize) -> usize
    requires { here < end }
    ensures { result ≡ content_end phase here end }
{
    if phases::byte::is_endless(phase) {
        end
    } else {
        here + 1
    }
}

// Events in order up to the first that 3, 4 or 16 refuses; 1 and 2 are not tested. There is room in the count for the events up to `end`, which is
// found once; the event behind them is refused.
pub fn go_through(
    chip: Chip,
    count: u64,
    memory: &mut [u8],
    writers: &mut [u64],
    events: &[u16],
) -> Ran
    ensures count_after { outcome result.done (number_of result.refusal) (state result.chip memory.new writers.new result.count)
        ≡ run_past_entry 0 events.now (state chip memory.old writers.old count) }
    ensures unknown_value { result.unknown ≡ tally_past_entry Unknown events.now (state chip memory.old writers.old count) }
    ensures out_of_range_value { result.out_of_range ≡ tally_past_entry OutOfRange events.now (state chip memory.old writers.old count) }
{
    let mut registers = chip.registers;
    let mut interface = Interface::of(chip);
    let mut pixels = chip.pixels;
    let end = display_bytes::room(count, events.len());
    let mut done = 0;
    let mut unknown = 0;
    let mut out_of_range = 0;
    // kept (no plainer): a turn may take a whole stretch, so that `done` moves on by what was taken, and not by one
    while done < end {
        let event = events[done];
        let phase = interface.phase;
        if brings_content(event, phase) {
            let before = interface;
            interface = interface.in_phase(phases::byte::phase_after_content(phase));
            if phase.rs() {
                let part = &events[done..content_end(phase, done, end)];
                let number = count + done as u64;
                let stretch = display_bytes::take(registers, pixels, number, memory, writers, part);
                if stretch.done == 0 {
                    return Ran {
                        done,
                        unknown,
                        out_of_range,
                        refusal: Some(Refusal::PixelCounts),
                        chip: before.whole(registers, pixels),
                        count: number,
                    };
                }
                registers.x = stretch.x;
                registers.y = stretch.y;
                pixels = stretch.pixels;
                done += stretch.done;
            } else {
                let commanded = commands::command(registers, event as u8);
                let answer = commanded.answer;
                registers = commanded.registers;
                done += 1;
                if !answer.is_taken() {
                    unknown += answer.counts(CommandAnswer::Unknown);
                    out_of_range += answer.counts(CommandAnswer::OutOfRange);
                }
            }
        } else {
            if !registers::refusal::is_listed_event(event) {
                return Ran {
                    done,
                    unknown,
                    out_of_range,
                    refusal: Some(Refusal::UnlistedEvent),
                    chip: interface.whole(registers, pixels),
                    count: count + done as u64,
                };
            }
            interface = crate::other::interface_after(Event::of(event), interface, registers);
            registers = crate::other::registers_after(event, registers);
            done += 1;
        }
    }
    Ran {
        done,
        unknown,
        out_of_range,
        refusal: crate::refusal::of_next(events, done, count + done as u64),
        chip: interface.whole(registers, pixels),
        count: count + done as u64,
    }
}
