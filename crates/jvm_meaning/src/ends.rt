ghost use Rattle.std.specs.Prelude.{◌≡◌, ℕ, find, length};
ghost use Rattle.std.specs.List.{list_any};
ghost use Rattle.jvm_state.specs.declared.value.End.TheVariants as end;
ghost use Rattle.jvm_meaning.specs.Calls.{covers};
ghost use Rattle.jvm_meaning.specs.Steps.{site_of, sites_of, refused_at, handles, uncaught, thrown, end_of};

use crate::calls::code_of;
use class_file::{ClassFile, ExceptionRow, MethodId};
use jvm_state::{Callers, End, Frame, Reason, Site, Stop, Throw};

/// Where a frame is.
pub fn site_of<I: Copy, L: Copy>(frame: &Frame<I, L>) -> Site
    ensures { result ≡ site_of frame.now }
{
    Site {
        method: frame.method,
        pc: frame.pc,
    }
}

/// The caller's call that handles a throw, from the inner one on.
fn handling<I: Copy, L: Copy>(class: &ClassFile, callers: &Callers<I, L>) -> Option<Site>
    ensures { result ≡ find (handles class.now) (sites_of callers.now) }
{
    let mut rest = callers.outer_first();
    while let Some((inner, outer)) = rest.split_last() {
        let site = site_of(inner);
        if handles(class, site) {
            return Some(site);
        }
        rest = outer;
    }
    None
}

/// Whether a method has an exception row for a place.
fn handles(class: &ClassFile, site: Site) -> bool
    ensures { result ≡ handles class.now site }
{
    match code_of(class, site.method) {
        Some(code) => is_covered(code.rows.as_slice(), site.pc),
        None => false,
    }
}

/// Whether one of some exception rows covers a place.
fn is_covered(rows: &[ExceptionRow], pc: u32) -> bool
    ensures { result ≡ list_any (covers pc) rows.now }
{
    rows.iter().any(|row| covers(row, pc))
}

fn covers(row: &ExceptionRow, pc: u32) -> bool
    ensures { result ≡ covers pc row.now }
{
    u32::from(row.start) <= pc && pc < u32::from(row.end)
}

/// A refusal at a place.
pub fn refused_at<W: Copy>(reason: Reason, site: Site) -> End<W>
    ensures { result ≡ refused_at reason site }
{
    End::Refused {
        reason,
        method: site.method,
        pc: site.pc,
    }
}

fn uncaught<W: Copy>(kind: Throw, site: Site, initialises: bool) -> End<W>
    ensures { result ≡ uncaught kind site initialises }
{
    if initialises {
        return refused_at(Reason::InitThrew { kind }, site);
    }
    End::Threw {
        kind,
        method: site.method,
        pc: site.pc,
    }
}

/// The end by a throw at a place.
fn thrown<I: Copy, L: Copy, W: Copy>(
    class: &ClassFile,
    kind: Throw,
    site: Site,
    callers: &Callers<I, L>,
    initialises: bool,
) -> End<W>
    ensures { result ≡ thrown class.now kind site (sites_of callers.now) initialises }
{
    if handles(class, site) {
        return refused_at(Reason::Handler, site);
    }
    match handling(class, callers) {
        Some(call) => refused_at(Reason::Handler, call),
        None => uncaught(kind, site, initialises),
    }
}

/// A refusal of a method that can't begin.
pub fn bad_begin<W: Copy>(method: MethodId) -> End<W>
    ensures { result ≡ end.Refused Reason.BadCode method 0 }
{
    End::Refused {
        reason: Reason::BadCode,
        method,
        pc: 0,
    }
}

/// The end by a stop of an instruction at a place, by the places of the calls that are open.
pub fn end_of<I: Copy, L: Copy, W: Copy>(
    class: &ClassFile,
    site: Site,
    callers: &Callers<I, L>,
    initialises: bool,
    stop: Stop,
) -> End<W>
    ensures { result ≡ end_of class.now site (sites_of callers.now) initialises stop }
{
    match stop {
        Stop::Refused(reason) => refused_at(reason, site),
        Stop::Throws(kind) => thrown(class, kind, site, callers, initialises),
        Stop::BadBegin(method) => bad_begin(method),
        Stop::MoreFrames => End::MoreFrames,
        Stop::MoreElements => End::MoreElements,
    }
}
