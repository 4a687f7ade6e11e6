//! The sources of an input, parted by its lines `program`, and their images.
ghost use Rattle.std.specs.Prelude.{◌≡◌, ◌≤◌, IfErr, IfOk, MatchResult, length};
ghost use Rattle.std.specs.List.{All};
ghost use Rattle.m88_commands.specs.Limits.{most_input};
ghost use Rattle.m88_commands.specs.Inside.Placing.{HoldSources, IsShort, all_placed};
ghost use Rattle.m88_asm.specs.Several.{AreSources, HasTooMany, sources_refusal};
ghost use Rattle.m88_commands.specs.Sources.{IsRefusedSources, most_sources};

use arrayvec::ArrayVec;
use m88_asm::image_of_source;
use m88_base::{Image, NoMemory, Refusal, parted_at};
use std::alloc::Global;

/// The most sources of an input.
const MOST_SOURCES: usize = 8;

/// A source, and the number of lines of its input that stand before it.
#[derive(Clone, Copy, Debug)]
pub struct PlacedSource<'a> {
    pub lines: u32,
    pub source: &'a [u8],
}

impl<'a> Default for PlacedSource<'a> {
    /// What stands in a place for a source that isn't used.
    fn default() -> PlacedSource<'a> {
        PlacedSource {
            lines: 0,
            source: &[],
        }
    }
}

/// The line, from 1, of an input's eighth line `program`.
#[derive(Clone, Copy, PartialEq, Eq, Debug)]
struct TooManySources {
    line: u32,
}

/// The images of the sources of an input, or its refusal.
pub fn images_of_sources(
    alloc: Global,
    input: &[u8],
) -> Result<Result<Vec<Image>, Refusal>, NoMemory>
    requires { length input.now ≤ most_input }
    ensures { IfOk result (λ made. MatchResult made
        (λ images. HoldSources input.now images.items) (IsRefusedSources input.now)) }
{
    let sources = match sources_of(input) {
        Ok(sources) => sources,
        Err(many) => return Ok(Err(too_many(alloc, many)?)),
    };
    let mut images = Vec::new(alloc);
    for placed in sources.as_slice() {
        match image_of_source(alloc, placed.lines, placed.source)? {
            Ok(image) => images.push(image).or(Err(NoMemory))?,
            Err(refusal) => return Ok(Err(refusal)),
        }
    }
    Ok(Ok(images))
}

/// The refusal of an input with too many sources.
fn too_many(alloc: Global, many: TooManySources) -> Result<Refusal, NoMemory>
    ensures { IfOk result (λ r. r ≡ sources_refusal many.line) }
{
    let reason = String::from_str(alloc, "programs")?;
    Ok(Refusal::new(u64::from(many.line), 1, reason))
}

/// The sources of an input, at most eight.
fn sources_of(input: &[u8]) -> Result<ArrayVec<PlacedSource<'_>, MOST_SOURCES>, TooManySources>
    requires { length input.now ≤ most_input }
    ensures sources { IfOk result (λ sources. AreSources input.now (all_placed sources.items)) }
    ensures few { IfOk result (λ sources. length sources.items ≤ most_sources) }
    ensures short { IfOk result (λ sources. All IsShort sources.items) }
    ensures too_many { IfErr result
        (λ many. HasTooMany most_sources input.now (sources_refusal many.line)) }
{
    let mut sources = ArrayVec::new();
    let mut lines = 0;
    let mut rest = input;
    while let Ok(parted) = parted_at(rest, b"program") {
        let line = lines + parted.lines;
        if sources.len() + 1 == MOST_SOURCES {
            return Err(TooManySources { line });
        }
        sources.push(PlacedSource {
            lines,
            source: parted.before,
        });
        lines = line;
        rest = parted.behind;
    }
    sources.push(PlacedSource {
        lines,
        source: rest,
    });
    Ok(sources)
}
