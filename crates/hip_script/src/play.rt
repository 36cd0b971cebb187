//! Playing a script.
ghost use Rattle.std.specs.Prelude.{◌≡◌, ◌<◌, ◌⊎◌, ℕ, List, [], map, Err, IfSome, IsErrOf, OnOk};
ghost use Rattle.std.specs.List.{AllByRecursion};
ghost use Rattle.hip_script.specs.Grammar.{script_of};
ghost use Rattle.hip_script.specs.Performed.{CutsLine, CutsRun, Performs, PlaysLine, Tells};
ghost use Rattle.hip_script.specs.Played.{FieldsText, IsCutShort, IsPlayed, IsPlayedInPart, Reads, Written, fields_cost, printed_show};
ghost use Rattle.hip_script.specs.Printed.{printed_answers};
ghost use Rattle.hip_script.specs.Prints.{Prints};
ghost use Rattle.hip_script.specs.Said.{IsWithin, held, says_in};
ghost use Rattle.hip_script.specs.declared.fault.PlayFault.TheVariants.{NotACommand, ReadFailed};
ghost use Rattle.hipstr.specs.Meter.{RisesAtMost};

use crate::fault::{PlayFault, Stop, WriteFailed};
use crate::line::{Aside, Line};
use crate::print::{print_answer, print_count, print_records, print_slot, write};
use crate::script::Script;
use hip_fields::records_metered;
use hipstr::{Answer, Backend, Command, Meter, Pool, Reason, Slot, run};
use std::alloc::Global;
use std::io;
use std::io::{BufWriter, ErrorKind, Read, Write};

/// The number of slots that a script works on.
const SLOTS: usize = 16;

/// Plays a script: reads it whole, performs its commands on a pool of sixteen slots, and writes the answers, one a line.
///
/// A script with a line that is no command is refused before anything runs. What was written before a later fault stays written:
/// where a write fails, a front of the answers.
pub fn play<B: Backend, R: Read + Drop, W: Write + Drop>(
    alloc: Global,
    mut reader: R,
    writer: W,
) -> Result<(), PlayFault>
    ensures read { IfSome (R.remaining reader) (λ input. Reads (script_of input) result) }
    ensures bad_line { (line : ℕ) → result ≡ Err (NotACommand line) → 0 < line }
{
    let mut out = BufWriter::new(alloc, writer).or(Err(PlayFault::Memory))?;
    let played = play_to::<B, _, _>(alloc, &mut reader, &mut out);
    let flushed = match played {
        Err(PlayFault::WriteFailed) => Ok(()),
        _ => out.flush(),
    };
    let (_writer, _unwritten) = out.into_parts();
    played?;
    flushed.or(Err(PlayFault::WriteFailed))
}

/// Like [`play`], with a reader and a writer that are lent. Each line is written at once, so `out` should be buffered; it isn't flushed.
pub fn play_to<B: Backend, R: Read, W: Write>(
    alloc: Global,
    reader: &mut R,
    out: &mut W,
) -> Result<(), PlayFault>
    ensures read { IfSome (R.remaining reader.old) (λ input. Reads (script_of input) result) }
    ensures written { IfSome (R.remaining reader.old) (λ input. Written B.SHARES (script_of input)
        (W.contents out.old) (W.contents out.new) result) }
    ensures bad_line { (line : ℕ) → result ≡ Err (NotACommand line) → 0 < line }
{
    let mut input = Vec::new(alloc);
    if let Err(error) = reader.read_to_end(&mut input) {
        return Err(read_fault(&error));
    }
    play_script::<B, _>(alloc, input.as_slice(), out)
}

/// Like [`play_to`], of a script that is in memory.
pub fn play_script<B: Backend, W: Write>(
    alloc: Global,
    script: &[u8],
    out: &mut W,
) -> Result<(), PlayFault>
    ensures read { Reads (script_of script.now) result }
    ensures in_memory { result ≡ Err ReadFailed → ⊥ }
    ensures written { Written B.SHARES (script_of script.now) (W.contents out.old) (W.contents out.new) result }
    ensures bad_line { (line : ℕ) → result ≡ Err (NotACommand line) → 0 < line }
{
    let script = Script::read(alloc, script)?;
    match play_lines::<B, _>(alloc, &script, out) {
        Ok(()) => Ok(()),
        Err(Stop::WriteFailed) => Err(PlayFault::WriteFailed),
        Err(Stop::Memory) => Err(PlayFault::Memory),
    }
}

/// Why the script could not be read.
fn read_fault(error: &io::Error) -> PlayFault
    ensures { (result ≡ PlayFault.ReadFailed) ⊎ (result ≡ PlayFault.Memory) }
{
    match error.kind() {
        ErrorKind::OutOfMemory => PlayFault::Memory,
        _ => PlayFault::ReadFailed,
    }
}

/// Plays all lines.
fn play_lines<B: Backend, W: Write>(
    alloc: Global,
    script: &Script<'_>,
    out: &mut W,
) -> Result<(), Stop>
    requires { AllByRecursion (IsWithin (held script.now.buffers)) script.now.lines.items }
    ensures ok { OnOk result (IsPlayed B.SHARES (map (says_in (held script.now.buffers)) script.now.lines.items)
        (W.contents out.old) (W.contents out.new)) }
    ensures memory { IsErrOf result Stop.Memory
        → IsPlayedInPart B.SHARES (map (says_in (held script.now.buffers)) script.now.lines.items)
        (W.contents out.old) (W.contents out.new) }
    ensures failed { IsErrOf result Stop.WriteFailed
        → IsCutShort B.SHARES (map (says_in (held script.now.buffers)) script.now.lines.items)
        (W.contents out.old) (W.contents out.new) }
{
    let mut pool = Pool::<B>::new(alloc, SLOTS)?;
    let mut meter = Meter::new();
    let mut commands = Vec::with_capacity(alloc, script.lines.len())?;
    for said in &script.lines {
        play_line(
            alloc,
            script.line(said),
            &mut pool,
            &mut commands,
            &mut meter,
            out,
        )?;
    }
    perform(alloc, &mut pool, commands.as_slice(), &mut meter, out)
}

/// Plays a line: a command waits, and any other line is answered once those that waited are run.
fn play_line<'b, B: Backend, W: Write>(
    alloc: Global,
    line: Line<'b>,
    pool: &mut Pool<'b, B>,
    commands: &mut Vec<Command<'b>>,
    meter: &mut Meter,
    out: &mut W,
) -> Result<(), Stop>
    ensures ok { OnOk result (PlaysLine B.SHARES line.entry commands.old.items commands.new.items
        (record { slots = pool.old; counted = meter.old; written = W.contents out.old })
        (record { slots = pool.new; counted = meter.new; written = W.contents out.new })) }
    ensures memory { IsErrOf result Stop.Memory → W.contents out.new ≡ W.contents out.old }
    ensures failed { IsErrOf result Stop.WriteFailed → CutsLine B.SHARES line.entry commands.old.items
        (record { slots = pool.old; counted = meter.old; written = W.contents out.old }) (W.contents out.new) }
{
    match line {
        Line::Command(command) => {
            commands.push(command)?;
            Ok(())
        }
        Line::Aside(aside) => {
            perform_waiting(alloc, pool, commands, meter, out)?;
            tell(alloc, pool, aside, meter, out)?;
            Ok(())
        }
    }
}

/// Performs the commands that wait, of which none is left then.
fn perform_waiting<'b, B: Backend, W: Write>(
    alloc: Global,
    pool: &mut Pool<'b, B>,
    commands: &mut Vec<Command<'b>>,
    meter: &mut Meter,
    out: &mut W,
) -> Result<(), Stop>
    ensures ok { OnOk result (Performs B.SHARES pool.old commands.old.items pool.new meter.old meter.new
        (W.contents out.old) (W.contents out.new)) }
    ensures emptied { OnOk result (commands.new.items ≡ []) }
    ensures memory { IsErrOf result Stop.Memory → W.contents out.new ≡ W.contents out.old }
    ensures failed { IsErrOf result Stop.WriteFailed
        → CutsRun B.SHARES pool.old commands.old.items (W.contents out.old) (W.contents out.new) }
{
    perform(alloc, pool, commands.as_slice(), meter, out)?;
    commands.clear();
    Ok(())
}

/// Performs commands, and prints their answers.
fn perform<'b, B: Backend, W: Write>(
    alloc: Global,
    pool: &mut Pool<'b, B>,
    commands: &[Command<'b>],
    meter: &mut Meter,
    out: &mut W,
) -> Result<(), Stop>
    ensures ok { OnOk result (Performs B.SHARES pool.old commands.now pool.new meter.old meter.new
        (W.contents out.old) (W.contents out.new)) }
    ensures memory { IsErrOf result Stop.Memory → W.contents out.new ≡ W.contents out.old }
    ensures failed { IsErrOf result Stop.WriteFailed
        → CutsRun B.SHARES pool.old commands.now (W.contents out.old) (W.contents out.new) }
{
    let answers = run(alloc, pool, commands, meter)?;
    print_answers(out, answers.as_slice())
}

/// Prints answers, one a line.
fn print_answers<W: Write>(out: &mut W, answers: &[Answer]) -> Result<(), Stop>
    ensures prints { Prints (W.contents out.old) (W.contents out.new) (printed_answers answers.now) result }
    ensures memory { IsErrOf result Stop.Memory → ⊥ }
{
    for answer in answers {
        print_answer(out, *answer)?;
    }
    Ok(())
}

/// Answers a line that is no command.
fn tell<B: Backend, W: Write>(
    alloc: Global,
    pool: &Pool<'_, B>,
    aside: Aside,
    meter: &mut Meter,
    out: &mut W,
) -> Result<(), WriteFailed>
    ensures { Tells B.SHARES pool.now aside meter.old meter.new (W.contents out.old) (W.contents out.new) result }
{
    match aside {
        Aside::Show(slot) => show(pool, slot, out),
        Aside::Copied => print_count(out, meter.copied()),
        Aside::Fields(slot, separator) => tell_fields(alloc, pool, slot, separator, meter, out),
    }
}

/// Prints a slot.
fn show<B: Backend, W: Write>(
    pool: &Pool<'_, B>,
    slot: usize,
    out: &mut W,
) -> Result<(), WriteFailed>
    ensures { Prints (W.contents out.old) (W.contents out.new) (printed_show pool.now slot) result }
{
    match pool.slot(slot) {
        Some(slot) => print_slot(out, slot.is_text(), slot.as_bytes()),
        None => write(out, b"refused NoSlot\n"),
    }
}

/// Prints the records of a slot's text, or why there are none.
fn tell_fields<B: Backend, W: Write>(
    alloc: Global,
    pool: &Pool<'_, B>,
    slot: usize,
    separator: char,
    meter: &mut Meter,
    out: &mut W,
) -> Result<(), WriteFailed>
    ensures prints { (text : List ℕ) × FieldsText pool.now slot separator text
        × Prints (W.contents out.old) (W.contents out.new) text result }
    ensures counted { RisesAtMost meter.old meter.new (fields_cost B.SHARES pool.now slot separator) }
{
    match pool.slot(slot) {
        Some(Slot::Text(text)) => match records_metered(alloc, text, separator, meter) {
            Ok(records) => print_records(out, records.as_slice()),
            Err(_) => write(out, b"refused Memory\n"),
        },
        Some(Slot::Bytes(_)) => write(out, b"refused NotText\n"),
        None => write(out, b"refused NoSlot\n"),
    }
}
