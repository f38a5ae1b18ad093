// What is tested.
use react_compiler_hir::{IdentifierRow, ScopeRow, Source};
use std::marker::Model;

// A function, as its source tells it, and the two tables beside it.
#[derive(Drop)]
pub struct Tested<'a, S: Source> {
    pub source: &'a S,
    pub scopes: &'a [ScopeRow],
    pub identifiers: &'a [IdentifierRow],
}

impl<'a, S: Source> Model for Tested<'a, S> {
    ghost use Rattle.function_tests.specs.Subject.{Subject};

    ghost Value = { Subject };

    ghost view = { λ t. record { kind = S.tag; function = S.function t.source.now; scopes = t.scopes.now; identifiers = t.identifiers.now } };
}
