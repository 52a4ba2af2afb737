//! Aliases that name no id or property.

ghost use Rattle.std.specs.Prelude.{◌≡◌};
ghost use Rattle.qml_base.specs.declared.load_cause.LoadCause.TheVariants.{BadAlias};
ghost use Rattle.load_faults.specs.Faults.{first_from, fault_at};
ghost use Rattle.load_faults.specs.Aliases.{bad_end};
ghost use Rattle.path_ends.specs.Said.{end_of, known_end};
ghost use Rattle.alias_faults.specs.BadAliases as s;

use load_passes::Best;
use path_ends::{Alias, PathEnd, UnitEnds, known_at};
use program_names::Fault;
use qml_base::{LoadCause, Place};

/// Tells each alias of a document that ends at nothing, at the first token of its target (BadAlias). These are the aliases by
/// the document's rows, and what is known of the ends of all.
#[tactic(auto, using(crate::proofs::FaultLemmas::one_row, crate::proofs::FaultLemmas::all_told))]
pub fn tell_bad_aliases(
    known: &[UnitEnds],
    document: usize,
    rows: &[Option<Alias>],
    best: &mut Best,
)
    ensures { best.new.fault ≡ first_from best.old.fault (s.bad_rows known.now document 0 rows.now) }
{
    'rows: for (row, alias) in rows.iter().enumerate() {
        tell_row(known, document, row, alias, best);
    }
}

fn tell_row(known: &[UnitEnds], document: usize, row: usize, alias: &Option<Alias>, best: &mut Best)
    ensures { best.new.fault ≡ first_from best.old.fault (s.bad_row known.now document row alias.now) }
{
    match alias {
        Some(alias) => tell_alias(known, document, row, alias, best),
        None => {}
    }
}

fn tell_alias(known: &[UnitEnds], document: usize, row: usize, alias: &Alias, best: &mut Best)
    ensures { best.new.fault ≡ first_from best.old.fault (bad_end alias.now.at (known_end known.now document row)) }
{
    match known_at(known, document, row) {
        Some(entry) => tell_end(&entry.end, alias.at, best),
        None => tell(alias.at, best),
    }
}

fn tell_end(end: &PathEnd, at: Place, best: &mut Best)
    ensures { best.new.fault ≡ first_from best.old.fault (bad_end at (end_of end.now)) }
{
    match end {
        PathEnd::Nothing => tell(at, best),
        PathEnd::Circle => {}
        PathEnd::Object(_) => {}
        PathEnd::Cell {
            way: _,
            place: _,
            kind: _,
            access: _,
        } => {}
    }
}

fn tell(at: Place, best: &mut Best)
    ensures { best.new.fault ≡ first_from best.old.fault (fault_at at BadAlias) }
{
    best.tell(Fault {
        at,
        cause: LoadCause::BadAlias,
    });
}
