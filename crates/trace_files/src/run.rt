ghost use Rattle.std.specs.{Prelude.{◌≡◌, ◌+◌, ◌%◌, ◌<◌, ◌==◌, is_some, option_to_list}, List.list_any};
ghost use Rattle.device_types.specs.{Bounds.{is_disjoint, unwrapped_region, are_valid, is_valid_region, executable_region, output_region}, Map.metadata_region, ExecFlag.{clears, starts_run, ran_inside, ran_at, fetches_outside}};
ghost use Rattle.trace_files.specs.{Span.region_of, Disturbance.{disturbs_run, disturbs_rest}, Clean.seen_in};

use crate::rule::is_write;
use crate::span::{MAC, METADATA, Span};
use crate::trace_line::TraceLine;
use device_types::{Access, Bounds, Kind};

impl Span {
    ghost use Rattle.trace_files.specs.Span.{region_of};

    // ER, and OR. An end past FFFF wraps.
    fn executable(bounds: &Bounds) -> Span
        ensures { region_of result ≡ executable_region bounds.now }
    {
        Span {
            first: bounds.er_min,
            last: bounds.er_max.wrapping_add(1),
        }
    }

    fn output(bounds: &Bounds) -> Span
        ensures { region_of result ≡ output_region bounds.now }
    {
        Span {
            first: bounds.or_min,
            last: bounds.or_max.wrapping_add(1),
        }
    }
}

/// The step of a line starts a run of ER: the opcode fetch at ERmin, with valid bounds.
pub fn starts_run(line: &TraceLine) -> bool
    ensures { result ≡ starts_run (seen_in line.now) }
{
    line.kind == Kind::Cpu
        && line.cpu == Some(Access::Fetch(line.pc))
        && line.pc == line.bounds.er_min
        && are_valid(&line.bounds)
}

fn are_valid(bounds: &Bounds) -> bool
    ensures { result ≡ are_valid bounds.now }
{
    is_region(bounds.er_min, bounds.er_max)
        && is_region(bounds.or_min, bounds.or_max)
        && are_apart(bounds)
}

// Neither region begins before the other's end.
#[tactic(auto, using(crate::proofs::Spans::apart))]
fn are_apart(bounds: &Bounds) -> bool
    requires executable { bounds.now.er_max < 0xFFFF }
    requires output { bounds.now.or_max < 0xFFFF }
    ensures { result ≡ is_disjoint (unwrapped_region bounds.now.er_min bounds.now.er_max)
        (unwrapped_region bounds.now.or_min bounds.now.or_max) }
{
    let meet = bounds.er_min <= bounds.or_max + 1 && bounds.or_min <= bounds.er_max + 1;
    !meet
}

// Even and in order, wholly in RAM behind the MAC and beside the metadata, or wholly in the
// program.
#[tactic(auto, using(crate::proofs::Spans::valid_region))]
fn is_region(first: u16, last: u16) -> bool
    ensures { result ≡ is_valid_region metadata_region first last }
{
    first % 2 == 0
        && last % 2 == 0
        && first <= last
        && ((MAC.last < first && last < METADATA.first)
            || (METADATA.last < first && last < 0x2200)
            || (0xC000 <= first && last < 0xFFE0))
}

/// The step of a line, after a step at this `pc`, clears the EXEC flag.
pub fn is_disturbed(last: Option<u16>, line: &TraceLine) -> bool
    ensures { result ≡ clears last (seen_in line.now) }
{
    let er = Span::executable(&line.bounds);
    if er.has(line.pc) {
        disturbs_run(last, line)
    } else {
        disturbs_rest(last, line)
    }
}

// In ER: nothing but the run itself may happen, and it begins at ERmin.
fn disturbs_run(last: Option<u16>, line: &TraceLine) -> bool
    ensures { result ≡ disturbs_run (executable_region line.now.bounds) line.now.cpu line.now.dma
        (is_some line.now.rule) line.now.irq (line.now.pc == line.now.bounds.er_min)
        (ran_inside last (executable_region line.now.bounds)) }
{
    let er = Span::executable(&line.bounds);
    line.rule.is_some()
        || line.irq
        || line.dma.is_some()
        || is_write(line.cpu) && (er.meets(line.cpu) || METADATA.meets(line.cpu))
        || fetches_outside(er, line.cpu)
        || line.pc != line.bounds.er_min && !was_in(er, last)
}

// Outside it: code and metadata stay, and so does the output, once ER was left from its end.
fn disturbs_rest(last: Option<u16>, line: &TraceLine) -> bool
    ensures { result ≡ disturbs_rest (executable_region line.now.bounds)
        (output_region line.now.bounds) line.now.cpu line.now.dma (is_some line.now.rule)
        (ran_inside last (executable_region line.now.bounds))
        (ran_at last line.now.bounds.er_max) }
{
    let er = Span::executable(&line.bounds);
    let output = Span::output(&line.bounds);
    line.rule.is_some()
        || is_write(line.cpu)
            && (er.meets(line.cpu) || output.meets(line.cpu) || METADATA.meets(line.cpu))
        || er.meets(line.dma)
        || output.meets(line.dma)
        || is_write(line.dma) && METADATA.meets(line.dma)
        || was_in(er, last) && last != Some(line.bounds.er_max)
}

// The step before was there.
fn was_in(span: Span, last: Option<u16>) -> bool
    ensures { result ≡ ran_inside last (region_of span) }
{
    match last {
        None => false,
        Some(pc) => span.has(pc),
    }
}

// A fetch of a word that is not wholly there.
fn fetches_outside(span: Span, access: Option<Access>) -> bool
    ensures { result ≡ list_any (fetches_outside (region_of span)) (option_to_list access) }
{
    match access {
        Some(Access::Fetch(place)) => !span.holds(Access::Fetch(place)),
        _ => false,
    }
}
