//! The structs in the order of the places where their members close.

ghost use Rattle.std.specs.Prelude.{◌≡◌, ◌++◌, ◌∷◌, [], length, IfOk, OnOk, ◌^◌, ◌<◌};
ghost use Rattle.ec_typing_defs.specs.Answers as spec;
ghost use Rattle.ec_check.specs.typed.Orders.{IsOrder, with_place, with_open, order_of};

use ec_base::{List, OutOfMemory};
use std::alloc::Global;

/// Numbers of structs in a new order, and for each number where it stands there.
#[derive(Drop)]
pub struct Order {
    pub numbers: List<u32>,
    pub places: List<Option<u32>>,
}

// No number, of structs with numbers below the count.
fn no_numbers(alloc: Global, count: usize) -> Result<Order, OutOfMemory>
    ensures numbers { IfOk result (λ order. order.numbers ≡ []) }
    ensures count { IfOk result (λ order. length order.places ≡ count) }
    ensures placed { IfOk result (λ order. IsOrder order.numbers order.places) }
{
    let mut places = List::with_capacity(alloc, count)?;
    for _made in 0..count {
        places.push(None)?;
    }
    Ok(Order {
        numbers: List::new(alloc),
        places,
    })
}

// The number is there already, or stands in this place now.
fn put_place(places: &mut List<Option<u32>>, k: u32, place: u32)
    ensures { places.new ≡ with_place places.old k place }
{
    match places.get(k as usize) {
        Some(None) => {}
        Some(Some(_)) => return,
        None => return,
    }
    places.set(k as usize, Some(place));
}

impl Order {
    // One number more. Its place is the first where it stands.
    fn add(&mut self, k: u32) -> Result<(), OutOfMemory>
        requires { IsOrder self.old.numbers self.old.places }
        ensures numbers { OnOk result (self.new.numbers ≡ self.old.numbers ++ k ∷ []) }
        ensures count { length self.new.places ≡ length self.old.places }
        ensures placed { OnOk result (IsOrder self.new.numbers self.new.places) }
    {
        let place = self.numbers.len();
        if place >= u32::MAX as usize {
            // Out of reach, which isn't proved: there are as many as structs, of which a source has fewer than tokens.
            return Err(OutOfMemory);
        }
        self.numbers.push(k)?;
        put_place(&mut self.places, k, place as u32);
        Ok(())
    }

    // One number more, unless it is there already.
    fn add_open(&mut self, k: u32) -> Result<(), OutOfMemory>
        requires placed { IsOrder self.old.numbers self.old.places }
        requires inside { k < length self.old.places }
        ensures numbers { OnOk result (self.new.numbers ≡ with_open self.old.numbers k) }
        ensures count { length self.new.places ≡ length self.old.places }
        ensures placed { OnOk result (IsOrder self.new.numbers self.new.places) }
    {
        match self.places.get(k as usize) {
            Some(None) => self.add(k),
            Some(Some(_)) => Ok(()),
            None => Ok(()),
        }
    }

    /// The place of a number, or how many there are where it has none.
    pub fn place(&self, k: u32) -> u32
        requires { IsOrder self.now.numbers self.now.places }
        ensures { result ≡ spec.place_of k self.now.numbers }
    {
        match self.places.get(k as usize) {
            Some(Some(place)) => *place,
            _ => place_in(self.numbers.as_slice(), k),
        }
    }
}

// The place of a number, found by looking at each.
fn place_in(numbers: &[u32], k: u32) -> u32
    requires { length numbers.now < 2 ^ 32 }
    ensures { result ≡ spec.place_of k numbers.now }
{
    for (i, number) in numbers.iter().enumerate() {
        if *number == k {
            return i as u32;
        }
    }
    numbers.len() as u32
}

/// The numbers of the structs whose members close, in this order, and then those of all others.
pub fn order_of(alloc: Global, closed: &[u32], count: usize) -> Result<Order, OutOfMemory>
    ensures numbers { IfOk result (λ order. order.numbers ≡ order_of closed.now count) }
    ensures placed { IfOk result (λ order. IsOrder order.numbers order.places) }
{
    if count > u32::MAX as usize {
        // Out of reach, which isn't proved: a source has fewer structs than tokens, of which it has at most 2^22.
        return Err(OutOfMemory);
    }
    let mut order = no_numbers(alloc, count)?;
    for k in closed {
        order.add(*k)?;
    }
    for open in 0..count {
        order.add_open(open as u32)?;
    }
    Ok(order)
}
