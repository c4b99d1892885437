//! Which method a message is bound to, by what was told of names.
ghost use Rattle.std.specs.Prelude.{◌≡◌, ◌&&◌, ◌||◌, not, length, filter, map, IfOk};
ghost use Rattle.std.specs.Option.{option_copied};
ghost use Rattle.vx_model.specs.Lookup.{differ, same_method};
ghost use Rattle.vx_compilation.specs.Binding.{are_over, at_each, bind, chosen, goes_before, is_bound_to, is_candidate, is_plain, is_possible, is_sure};
ghost use Rattle.vx_program.specs.Program.{is_name_of};
ghost use Rattle.std.specs.List.{find};
ghost use Rattle.vx_bind.specs.Orders.{order_told};

use crate::order::{Order, is_any};
use std::alloc::{AllocError, Global};
use vx_names::{MethodKey, Name};
use vx_node::{Bound, Info, Kind};
use vx_walks::is_one;

/// The method of these that a message with these infos finds, whatever its values are; with `below`, only of those that come
/// behind that method. Nobody understands a selector without methods.
pub fn decide(
    alloc: Global,
    order: &Order,
    heads: &[(MethodKey, Kind)],
    infos: &[Info],
    below: Option<&MethodKey>,
) -> Result<Bound, AllocError>
    ensures { IfOk result (λ bound. bound ≡ bind (order_told order.now) heads.now infos.now (option_copied below.entry)) }
{
    if heads.is_empty() {
        return Ok(Bound::Nobody);
    }
    let candidates = candidates(alloc, order, heads, below)?;
    choose(alloc, order, infos, candidates.as_slice())
}

// Those of the methods that count.
fn candidates<'a>(
    alloc: Global,
    order: &Order,
    heads: &'a [(MethodKey, Kind)],
    below: Option<&MethodKey>,
) -> Result<Vec<&'a (MethodKey, Kind)>, AllocError>
    ensures { IfOk result (λ found. map (λ head. head.now) found.items ≡
        filter (is_candidate (order_told order.now) (option_copied below.entry)) heads.now) }
{
    let mut found = Vec::new(alloc);
    for head in heads {
        if is_candidate(order, below, head) {
            found.push(head)?;
        }
    }
    Ok(found)
}

// Whether the method counts below the other one, from which the message is sent on; without one all do.
fn is_candidate(order: &Order, from: Option<&MethodKey>, head: &(MethodKey, Kind)) -> bool
    ensures { result ≡ is_candidate (order_told order.now) (option_copied from.entry) head.now }
{
    match from {
        Some(from) => goes_before(order, from, &head.0),
        None => true,
    }
}

// The first of the methods to which the message is bound; else it is open.
fn choose(
    alloc: Global,
    order: &Order,
    infos: &[Info],
    heads: &[&(MethodKey, Kind)],
) -> Result<Bound, AllocError>
    ensures { IfOk result (λ bound. bound ≡ chosen (find (is_bound_to (order_told order.now) infos.now (map (λ head. head.now) heads.now))
        (map (λ head. head.now) heads.now))) }
{
    for head in heads {
        if is_bound_to(order, infos, heads, head) {
            return Ok(Bound::One(head.0.copy(alloc)?, head.1.copy(alloc)?));
        }
    }
    Ok(Bound::Open)
}

// Whether the method is sure, and more specific than each other that is possible.
fn is_bound_to(
    order: &Order,
    infos: &[Info],
    heads: &[&(MethodKey, Kind)],
    head: &(MethodKey, Kind),
) -> bool
    ensures { result ≡ is_bound_to (order_told order.now) infos.now (map (λ head. head.now) heads.now) head.now }
{
    if !are_sure(order, infos, head.0.specialisers.as_slice()) {
        return false;
    }
    for other in heads {
        if !yields(order, infos, &head.0, &other.0) {
            return false;
        }
    }
    true
}

// Whether another method is not possible, or the same, or comes behind.
fn yields(order: &Order, infos: &[Info], key: &MethodKey, other: &MethodKey) -> bool
    ensures { result ≡ (not (at_each (is_possible (order_told order.now)) infos.now other.now.specialisers) || same_method key.now other.now
        || goes_before (order_told order.now) key.now other.now) }
{
    if !are_possible(order, infos, other.specialisers.as_slice()) {
        return true;
    }
    if key == other {
        return true;
    }
    goes_before(order, key, other)
}

// Whether each value that fits the infos counts as the specialisers.
fn are_sure(order: &Order, infos: &[Info], xs: &[Name]) -> bool
    ensures { result ≡ at_each (is_sure (order_told order.now)) infos.now xs.now }
{
    if infos.len() != xs.len() {
        return false;
    }
    for i in 0..infos.len() {
        if !is_sure(order, &infos[i], &xs[i]) {
            return false;
        }
    }
    true
}

// Whether values that fit the infos could.
fn are_possible(order: &Order, infos: &[Info], xs: &[Name]) -> bool
    ensures { result ≡ at_each (is_possible (order_told order.now)) infos.now xs.now }
{
    if infos.len() != xs.len() {
        return false;
    }
    for i in 0..infos.len() {
        if !is_possible(order, &infos[i], &xs[i]) {
            return false;
        }
    }
    true
}

// Whether each value that fits the info counts as the specialiser.
fn is_sure(order: &Order, info: &Info, x: &Name) -> bool
    ensures { result ≡ is_sure (order_told order.now) info.now x.now }
{
    if is_any(x) {
        return true;
    }
    match info {
        Info::Any => false,
        Info::Cone(class) => is_held(order, class, x),
        Info::Exact(class) => is_held(order, class, x),
    }
}

// Whether each value whose class is the object or below it counts as the specialiser.
fn is_held(order: &Order, class: &Name, x: &Name) -> bool
    ensures { result ≡ (is_plain (order_told order.now) x.now && is_name_of ((order_told order.now).up class.now) x.now) }
{
    order.is_plain(x) && is_one(order.up(class), x.bytes())
}

// Whether one could.
fn is_possible(order: &Order, info: &Info, x: &Name) -> bool
    ensures { result ≡ is_possible (order_told order.now) info.now x.now }
{
    if is_any(x) {
        return true;
    }
    match info {
        Info::Any => true,
        Info::Cone(class) => match order.base(x) {
            Some(base) => order.meet(base, class),
            None => false,
        },
        Info::Exact(class) => match order.base(x) {
            Some(base) => is_one(order.up(class), base.bytes()),
            None => false,
        },
    }
}

// Whether a method is more specific than another.
fn goes_before(order: &Order, m: &MethodKey, k: &MethodKey) -> bool
    ensures { result ≡ goes_before (order_told order.now) m.now k.now }
{
    let own = m.specialisers.as_slice();
    let others = k.specialisers.as_slice();
    if own.len() != others.len() {
        return false;
    }
    are_over(order, own, others) && differ(own, others)
}

// Whether each name of the second list is above the matching one of the first.
fn are_over(order: &Order, xs: &[Name], ys: &[Name]) -> bool
    requires { length xs.now ≡ length ys.now }
    ensures { result ≡ are_over (order_told order.now) xs.now ys.now }
{
    for i in 0..xs.len() {
        if !order.is_over(&xs[i], &ys[i]) {
            return false;
        }
    }
    true
}

// Whether some name differs from the matching one.
fn differ(xs: &[Name], ys: &[Name]) -> bool
    requires { length xs.now ≡ length ys.now }
    ensures { result ≡ differ xs.now ys.now }
{
    for i in 0..xs.len() {
        if xs[i].bytes() != ys[i].bytes() {
            return true;
        }
    }
    false
}
