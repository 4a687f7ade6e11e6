//! A session with the monitor by a script, over the program of the source behind it.
ghost use Rattle.std.specs.Prelude.{ℕ, ◌≡◌, ◌≤◌, ◌⊎◌, IfErr, IfOk, List, MatchResult, OnErr, length};
ghost use Rattle.m88_base.specs.Reading.{most_input};
ghost use Rattle.m88_asm.specs.Held.{HoldsUnit};
ghost use Rattle.m88_session.specs.MonitorText.{IsFrontOfSession, IsShownSession};
ghost use Rattle.m88_session.specs.Monitoring.{IsRefusedMonitor};
ghost use Rattle.m88_session.specs.Script.{IsScript, script_refusal};
ghost use Rattle.m88_session.specs.Settings.{AreBounded, settings_in};

use crate::monitor::carry_out;
use crate::script::{MonitorCommand, ScriptFault, read_script};
use crate::script_lines::MOST_COMMANDS;
use crate::settings::Settings;
use arrayvec::ArrayVec;
use m88_asm::image_of_source;
use m88_base::{Image, NoMemory, Refusal};
use m88_board::Watch;
use std::alloc::Global;

/// What a session with the monitor writes that carries out the script of an input of at most 1,048,576 bytes, on a board
/// over the program of the source behind it, which is shown to the watch after each event; or the refusal of the input.
pub fn run_session<W: Watch>(
    alloc: Global,
    settings: &Settings,
    input: &[u8],
    watch: &mut W,
) -> Result<Result<Vec<u8>, Refusal>, NoMemory>
    requires size { length input.now ≤ most_input }
    requires fit { AreBounded settings.now.limit settings.now.absent }
    // The input is accepted, the text is that of its session, and the watch was shown all of that.
    ensures text { IfOk result (λ made. IfOk made (λ text. IsShownSession input.now
        (settings_in settings.now) text.items (W.seen watch.old) (W.seen watch.new))) }
    // The input is refused so, and the watch was shown nothing.
    ensures refused { IfOk result (λ made. IfErr made (IsRefusedMonitor input.now)) }
    ensures unshown { IfOk result (λ made. OnErr made (watch.new ≡ watch.old)) }
    // Memory ran out: the watch was shown nothing, or a front of the session of an input that is accepted.
    ensures front { OnErr result ((watch.new ≡ watch.old) ⊎ IsFrontOfSession input.now
        (settings_in settings.now) (W.seen watch.old) (W.seen watch.new)) }
{
    let (commands, image) = match script_and_image(alloc, input)? {
        Ok(parts) => parts,
        Err(refusal) => return Ok(Err(refusal)),
    };
    let text = carry_out(alloc, settings, commands.as_slice(), &image, watch)?;
    Ok(Ok(text))
}

/// The commands of an input's script and the image of the source behind it, or the refusal of the input.
fn script_and_image(
    alloc: Global,
    input: &[u8],
) -> Result<Result<(ArrayVec<MonitorCommand, MOST_COMMANDS>, Image), Refusal>, NoMemory>
    requires { length input.now ≤ most_input }
    ensures { IfOk result (λ read. MatchResult read
        (λ p. (lines : ℕ) × (source : List ℕ)
        × IsScript input.now p.0.items lines source × HoldsUnit source p.1)
        (IsRefusedMonitor input.now)) }
{
    let script = match read_script(input) {
        Ok(script) => script,
        Err(fault) => return Ok(Err(unscripted(alloc, fault)?)),
    };
    match image_of_source(alloc, script.lines, script.source)? {
        Ok(image) => Ok(Ok((script.commands, image))),
        Err(refusal) => Ok(Err(refusal)),
    }
}

/// The refusal of an input without a script.
fn unscripted(alloc: Global, fault: ScriptFault) -> Result<Refusal, NoMemory>
    ensures { IfOk result (λ r. r ≡ script_refusal fault.line) }
{
    let reason = String::from_str(alloc, "script")?;
    Ok(Refusal::new(u64::from(fault.line), 1, reason))
}
