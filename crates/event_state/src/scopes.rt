//! Scopes: the index of a scope's database, and the LS types that belong to a scope.
ghost use Rattle.std.specs.Prelude.{◌≡◌};
ghost use Rattle.event_state.specs.Bases.{is_scope};
ghost use Rattle.event_state.specs.States.{place_of};
ghost use Rattle.event_state.specs.Steps.{is_out_of_scope};

use ospf_types::config::AreaConfig;
use ospf_types::key::Scope;
use ospf_types::lsa::AS_EXTERNAL_LSA;

// Returns the index of the scope's database. The database of the AS comes after the databases of
// the areas.
pub(crate) fn place_of(areas: &[AreaConfig], scope: Scope) -> Option<usize>
    ensures { result ≡ place_of areas.now scope }
{
    match scope {
        Scope::Area(id) => place_of_area(areas, id),
        Scope::As => Some(areas.len()),
    }
}

fn place_of_area(areas: &[AreaConfig], id: u32) -> Option<usize>
    ensures { result ≡ place_of areas.now (Scope.Area id) }
{
    areas.iter().position(|area| area.id == id)
}

// Returns true if LSAs of this LS type do not belong to the scope.
pub(crate) fn is_out_of_scope(scope: Scope, kind: u8) -> bool
    ensures { result ≡ is_out_of_scope scope kind }
{
    match scope {
        Scope::Area(_) => kind == AS_EXTERNAL_LSA,
        Scope::As => kind != AS_EXTERNAL_LSA,
    }
}

// Returns true if the scopes are equal.
pub(crate) fn is_scope(scope: Scope, other: Scope) -> bool
    ensures { result ≡ is_scope scope other }
{
    match scope {
        Scope::Area(id) => is_area(id, other),
        Scope::As => matches!(other, Scope::As),
    }
}

fn is_area(id: u32, scope: Scope) -> bool
    ensures { result ≡ is_scope (Scope.Area id) scope }
{
    match scope {
        Scope::Area(other) => id == other,
        Scope::As => false,
    }
}
