//! Where keys stand in the lists of a roster, sought by halves.
ghost use Rattle.std.specs.Prelude.{◌≡◌, ◌<◌, ◌^◌, IfOk};
ghost use Rattle.vx_names.specs.Key.{name_cmp, selector_cmp};
ghost use Rattle.vx_link.specs.Roster.{IsKeyList, IsRoster, code_cmp, field_key_cmp, place, place_in, place_found};

use crate::roster::Roster;
use std::cmp::Ordering;
use vx_names::{FieldKey, MethodKey, Name, Selector};
use vx_node::{Symbol, Variant};

/// The place of what the symbol names, in its list.
pub fn place(roster: &Roster, symbol: &Symbol) -> Option<u32>
    requires { IsRoster roster.now }
    ensures { result ≡ place roster.now symbol.now }
{
    match symbol {
        Symbol::Field(key) => field_place(roster.fields.as_slice(), key),
        Symbol::Object(name) => name_place(roster.objects.as_slice(), name.bytes()),
        Symbol::Test(name) => name_place(roster.tests.as_slice(), name.bytes()),
        Symbol::Table(selector) => table_place(
            roster.tables.as_slice(),
            selector.name.bytes(),
            selector.arity,
        ),
        Symbol::Code(key, variant) => code_place(roster.codes.as_slice(), key, variant),
    }
}

fn field_place(fields: &[FieldKey], key: &FieldKey) -> Option<u32>
    requires { IsKeyList field_key_cmp fields.now }
    ensures { result ≡ place_in field_key_cmp fields.now key.now }
{
    let found = fields.binary_search(key);
    place_found(found)
}

/// The place of a name among names.
pub fn name_place(names: &[Name], name: &[u8]) -> Option<u32>
    requires { IsKeyList name_cmp names.now }
    ensures { result ≡ place_in name_cmp names.now name.now }
{
    let found = names.binary_search_by(
        |own: &Name| -> Ordering
            ensures { result ≡ name_cmp own.now name.entry.now }
        { own.bytes().cmp(name) },
    );
    place_found(found)
}

/// The place of the table of a message.
pub fn table_place(tables: &[Selector], name: &[u8], arity: u8) -> Option<u32>
    requires { IsKeyList selector_cmp tables.now }
    ensures { result ≡ place_in selector_cmp tables.now (record { name = name.now; arity = arity }) }
{
    let found = tables.binary_search_by(
        |own: &Selector| -> Ordering
            ensures { result ≡ selector_cmp own.now (record { name = name.entry.now; arity = arity }) }
        { own.name.bytes().cmp(name).then(own.arity.cmp(&arity)) },
    );
    place_found(found)
}

fn code_place(codes: &[(MethodKey, Variant)], key: &MethodKey, variant: &Variant) -> Option<u32>
    requires { IsKeyList code_cmp codes.now }
    ensures { result ≡ place_in code_cmp codes.now (key.now, variant.now) }
{
    let found = codes.binary_search_by(
        |own: &(MethodKey, Variant)| -> Ordering
            ensures { result ≡ code_cmp own.now (key.entry.now, variant.entry.now) }
        { own.0.cmp(key).then(own.1.cmp(variant)) },
    );
    place_found(found)
}

// The place that a search found.
fn place_found(found: Result<usize, usize>) -> Option<u32>
    requires { IfOk found (λ place. place < 2 ^ 32) }
    ensures { result ≡ place_found found }
{
    match found {
        Ok(place) => Some(place as u32),
        Err(_) => None,
    }
}
