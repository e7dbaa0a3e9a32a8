//! Candidates that exclude each other, and by what: a conflict that one of them has, or a name that
//! both occupy. The rules are in `docs/selection.md`, "What satisfies world", 2 and 3.
ghost use Rattle.std.specs.Prelude.{◌≡◌, true, find, option_map, option_copied};
ghost use Rattle.dep_core.specs.Meets.{dependency};
ghost use Rattle.search_tables.specs.Selection.{exclude_each_other};
ghost use Rattle.unmet_world.specs.Exclusion.{both_occupy, conflict_between, is_conflict_met_by, shared_name_at_places, occupied_among, shared_name};

use dep_core::Dep;
use search_tables::{CandId, Deps, Details, Sealed};

/// Whether two candidates exclude each other, so that no selection has both.
pub(crate) fn exclude_each_other(pool: &Sealed<'_>, a: CandId, b: CandId) -> bool
    ensures { result ≡ true → exclude_each_other pool.now a b ≡ true }
{
    if a == b {
        return false;
    }
    if conflict_between(pool, a, b).is_some() {
        return true;
    }
    if conflict_between(pool, b, a).is_some() {
        return true;
    }
    shared_name_at_places(pool, a, b).is_some()
}

/// The first conflict of the candidate `a` that the candidate `b` meets.
pub(crate) fn conflict_between<'a>(pool: &Sealed<'a>, a: CandId, b: CandId) -> Option<Dep<'a>>
    ensures { option_map dependency result ≡ conflict_between pool.now a b }
{
    let Some(one) = pool.at(a) else {
        return None;
    };
    let Some(other) = pool.at(b) else {
        return None;
    };
    let depends = one.depends();
    for i in 0..depends.len() {
        let dep = depends.get(i);
        if is_conflict_met_by(&dep, &other) {
            return Some(dep);
        }
    }
    None
}

/// Whether a dependency is a conflict, and the candidate `other` meets it.
pub(crate) fn is_conflict_met_by(dep: &Dep<'_>, other: &Details<'_>) -> bool
    ensures { result ≡ is_conflict_met_by other.now (dependency dep.now) }
{
    if !dep.conflict {
        return false;
    }
    other.meets(dep)
}

/// The first name that the candidates `a` and `b` both occupy: that of `a`, or one of its provides.
pub(crate) fn shared_name_at_places<'a>(pool: &Sealed<'a>, a: CandId, b: CandId) -> Option<&'a [u8]>
    ensures { option_copied result ≡ shared_name_at_places pool.now a b }
{
    let Some(one) = pool.at(a) else {
        return None;
    };
    let Some(other) = pool.at(b) else {
        return None;
    };
    if other.occupies(one.name()) {
        return Some(one.name());
    }
    let provides = one.provides();
    for i in 0..provides.len() {
        let entry = provides.get(i);
        if occupies(&entry, &other) {
            return Some(entry.name);
        }
    }
    None
}

// Whether an entry of provides occupies its name (it has a version), and the candidate `other`
// occupies this name too.
fn occupies(entry: &Dep<'_>, other: &Details<'_>) -> bool
    ensures { result ≡ both_occupy other.now (dependency entry.now) }
{
    if entry.conflict || entry.version.is_none() {
        return false;
    }
    other.occupies(entry.name)
}
