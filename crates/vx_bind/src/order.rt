//! What was told of names, and which name is above which by it.
ghost use Rattle.std.specs.Prelude.{◌≡◌, ◌++◌};
ghost use Rattle.std.specs.Option.{option_copied};
ghost use Rattle.std.specs.Str.{bytes_eq};
ghost use Rattle.std.specs.List.{list_any};
ghost use Rattle.vx_syntax.specs.Declarations.{any};
ghost use Rattle.vx_program.specs.Program.{is_name_of};
ghost use Rattle.vx_compilation.specs.Binding.{is_over, is_plain};
ghost use Rattle.vx_answers.specs.SendRows.{base_of, of_name, ups_of};
ghost use Rattle.vx_bind.specs.Orders.{order_told};

use sqlite_items::Items;
use std::marker::Model;
use vx_names::Name;
use vx_walks::is_one;

/// What was told of a name: its base, and the names above it.
#[derive(Drop)]
pub struct About {
    name: Name,
    base: Option<Name>,
    up: Items<Name>,
}

impl Model for About {
    ghost use Rattle.vx_answers.specs.SendRows.{About};

    ghost Value = { About };

    ghost view = { λ a. record { name = a.name; base = a.base; up = a.up } };
}

impl About {
    pub fn new(name: Name, base: Option<Name>, up: Items<Name>) -> About
        ensures { result ≡ record { name = name; base = base; up = up } }
    {
        About { name, base, up }
    }
}

/// What was told of names: of some their bases and what is above them, of others what is above them alone, and of others
/// the plain objects below them.
#[derive(Drop)]
pub struct Order {
    pub abouts: Items<About>,
    pub ups: Items<(Name, Items<Name>)>,
    pub cones: Items<(Name, Items<Name>)>,
}

impl Order {
    /// The base of a name, where it was told.
    pub fn base(&self, x: &Name) -> Option<&Name>
        ensures { option_copied result ≡ (order_told self.now).base x.now }
    {
        base_of(self.abouts.as_slice(), x)
    }

    /// The names above a name.
    pub fn up(&self, x: &Name) -> &[Name]
        ensures { result.now ≡ (order_told self.now).up x.now }
    {
        for one in self.abouts.as_slice() {
            if one.name.bytes() == x.bytes() {
                return one.up.as_slice();
            }
        }
        of_name(self.ups.as_slice(), x)
    }

    /// The plain objects below a name, itself among them where it is one.
    pub fn cone(&self, x: &Name) -> &[Name]
        ensures { result.now ≡ (order_told self.now).cone x.now }
    {
        of_name(self.cones.as_slice(), x)
    }

    /// Whether the second name is above the first. Nothing is asked of `any`.
    pub fn is_over(&self, x: &Name, y: &Name) -> bool
        ensures { result ≡ is_over (order_told self.now) x.now y.now }
    {
        if is_any(x) {
            return is_any(y);
        }
        is_one(self.up(x), y.bytes())
    }

    /// Whether a name has itself as its base, as plain objects have.
    pub fn is_plain(&self, x: &Name) -> bool
        ensures { result ≡ is_plain (order_told self.now) x.now }
    {
        match self.base(x) {
            Some(base) => base.bytes() == x.bytes(),
            None => false,
        }
    }

    /// Whether a plain object is below both names.
    pub fn meet(&self, x: &Name, y: &Name) -> bool
        ensures { result ≡ list_any (is_name_of ((order_told self.now).cone x.now)) ((order_told self.now).cone y.now) }
    {
        let others = self.cone(x);
        for own in self.cone(y) {
            if is_one(others, own.bytes()) {
                return true;
            }
        }
        false
    }
}

/// The base of a name, where it was told.
pub fn base_of<'a>(abouts: &'a [About], x: &Name) -> Option<&'a Name>
    ensures { option_copied result ≡ base_of x.now abouts.now }
{
    for one in abouts {
        if one.name.bytes() == x.bytes() {
            return one.base.as_ref();
        }
    }
    None
}

// The names beside a name.
fn of_name<'a>(beside: &'a [(Name, Items<Name>)], x: &Name) -> &'a [Name]
    ensures { result.now ≡ of_name x.now beside.now }
{
    for one in beside {
        if one.0.bytes() == x.bytes() {
            return one.1.as_slice();
        }
    }
    &[]
}

/// Whether it is `any`, of which nothing is asked.
pub fn is_any(x: &Name) -> bool
    ensures { result ≡ bytes_eq x.now any }
{
    x.bytes() == b"any".as_slice()
}
