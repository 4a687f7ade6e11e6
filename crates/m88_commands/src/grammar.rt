//! The grammar that the words of commands have in common.
ghost use Rattle.std.specs.Prelude.{◌≡◌, ◌≤◌, [], None, OnSome, Some, false};
ghost use Rattle.m88_session.specs.Settings.{AreBounded, settings_in, settings_of};
ghost use Rattle.m88_session.specs.Reading.{ReadsValue};
ghost use Rattle.m88_commands.specs.Inside.Reading.{ReadsFit};
ghost use Rattle.m88_commands.specs.Limits.{most_limit};
ghost use Rattle.m88_commands.specs.Words.{SayOpening, SayPlain, SaySettings, mode_words};
ghost use Rattle.m88_base.specs.Words.{texts};

use crate::limits::MOST_LIMIT;
use crate::pages::absent_of;
use m88_base::first_word;
use m88_event::Schedule;
use m88_session::{Settings, decimal_number};

/// Nothing, where there are no more words.
pub fn no_more(words: &[String]) -> Option<()>
    ensures found { OnSome result (texts words.now ≡ []) }
    ensures only { texts words.now ≡ [] → result ≡ Some tt }
{
    if words.is_empty() { Some(()) } else { None }
}

/// The mode that the words behind a schedule say: `mxm` alone sets MXM, and without it MXM is clear.
fn mode(words: &[String]) -> Option<bool>
    ensures { ReadsValue (λ mxm. texts words.now ≡ mode_words mxm) result }
{
    let Some((word, rest)) = first_word(words) else {
        return Some(false);
    };
    if word == "mxm" {
        no_more(rest)?;
        return Some(true);
    }
    None
}

/// The settings of a limit, and of words for absent pages (`none`, `all`, or 1 to 64 page numbers joined by commas), a
/// schedule (`-`, or 1 to 65,536 letters `i`, `r` and `e`) and a mode.
pub fn opening<'a>(limit: u32, words: &'a [String]) -> Option<Settings<'a>>
    requires { limit ≤ most_limit }
    ensures { ReadsFit (SayOpening limit (texts words.now))
        (λ s. settings_of limit s.absent s.schedule s.mxm)
        (λ s. (s.limit ≡ limit) × AreBounded limit s.absent) result }
{
    let (absent, words) = first_word(words)?;
    let (schedule, words) = first_word(words)?;
    let mxm = mode(words)?;
    let absent = absent_of(absent)?;
    let schedule = Schedule::read(schedule)?;
    Some(Settings {
        limit,
        absent,
        schedule,
        mxm,
    })
}

/// The settings of a run: its limit (1 to 7 decimal digits, at most 1,000,000), and what comes after it.
pub fn settings<'a>(words: &'a [String]) -> Option<Settings<'a>>
    ensures { ReadsFit (SaySettings (texts words.now))
        settings_in (λ s. AreBounded s.limit s.absent) result }
{
    let (limit, words) = first_word(words)?;
    let limit = decimal_number(7, limit.as_bytes(), MOST_LIMIT)?;
    let settings = opening(limit, words)?;
    Some(settings)
}

/// Those of a run whose words have no mode: MXM is clear.
pub fn plain_settings<'a>(words: &'a [String]) -> Option<Settings<'a>>
    ensures { ReadsFit (SayPlain (texts words.now))
        (λ s. settings_of s.limit s.absent s.schedule false)
        (λ s. AreBounded s.limit s.absent) result }
{
    let settings = settings(words)?;
    if settings.mxm { None } else { Some(settings) }
}
