//! The link of a call.

ghost use Rattle.std.specs.Prelude.{◌≡◌, ◌≤◌, Err, MatchResult, Ok, IfOk, IsOk};
ghost use Rattle.nr_refusal.specs.Refusal.{with_fault};
ghost use Rattle.nr_blockdesk.specs.{Explains.hearing_said_of, Link.link_said};
ghost use Rattle.nr_calls.specs.Crossing.{settings_in};

use crate::crossing::NrSettings;
use crate::entries::NrEntry;
use crate::fault::Fault;
use nr_blockdesk::{Link, Settings, Tx};
use nr_shifttable::Table;

// What the link of a call is made of: a shift table's entries, the settings, and the size of a transport block.
#[derive(Clone, Copy)]
pub(crate) struct LinkParams<'e> {
    pub(crate) entries: &'e [NrEntry],
    pub(crate) settings: Settings,
    pub(crate) a: u32,
}

impl<'e> LinkParams<'e> {
    // These, as C gives them.
    pub(crate) fn of(entries: &'e [NrEntry], settings: &NrSettings, a: u32) -> LinkParams<'e>
        ensures entries { result.entries.now ≡ entries.now }
        ensures settings { result.settings ≡ settings_in settings.now }
        ensures a { result.a ≡ a }
    {
        LinkParams {
            entries,
            settings: settings.settings(),
            a,
        }
    }
}

// The link for transport blocks of `a` bits, or the first cause against it.
pub(crate) fn link_on<'t>(table: &'t Table, settings: Settings, a: u32) -> Result<Link<'t>, Fault>
    ensures { MatchResult result
        (λ link. link_said table.now settings a ≡ Ok link)
        (λ fault. with_fault Fault.Desk (link_said table.now settings a) ≡ Err fault) }
{
    match Link::new(table, settings, a) {
        Ok(link) => Ok(link),
        Err(fault) => Err(Fault::Desk(fault)),
    }
}

// The first cause against a transmission of which `count` places were received.
pub(crate) fn judge_heard(link: &Link<'_>, tx: &Tx, count: usize) -> Result<(), Fault>
    ensures said { MatchResult result
        (λ done. IsOk (hearing_said_of link.now.plan.c tx.now count))
        (λ fault. with_fault Fault.Desk (hearing_said_of link.now.plan.c tx.now count) ≡ Err fault) }
    ensures few { IfOk result (λ done. count ≤ 4194304) }
{
    match link.heard_lengths(tx, count) {
        Ok(_) => Ok(()),
        Err(fault) => Err(Fault::Desk(fault)),
    }
}
