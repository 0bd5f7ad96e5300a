ghost use Rattle.std.specs.Prelude.{◌≡◌, ◌+◌, ◌<◌, ◌≤◌, [], ◌∷◌, All, IfOk, None, vec_len};
ghost use Rattle.std.proofs.Common.{arith, refl};
ghost use Rattle.fx_turn.specs.Tallies.{zeros};
ghost use Rattle.fx_turn.specs.Seats.{IsPlain, all_parts, first_seat};

use crate::same::{same, surely_same};
use fx_turn::{Fits, Memory, Pause, Seat, Turns};
use std::alloc::Global;
use std::process::Abort;
use std::rt::Clock;
use std::sync::Wait;
use std::sync::atomic::{AtomicU64, Ordering};
use std::time::Duration;
use std::{io, thread};

// A plain number, which any name fits.
#[derive(Drop)]
struct Number {
    value: u64,
}

impl Fits<u32> for Number {
    type Mark = ();

    ghost fits = { λ _ _. Unit {0} };

    ghost tally = { λ _. zeros };

    ghost claims = { λ _. [] };

    ghost grown = { λ _ _. Unit {0} };

    ghost six_numbers = { λ _. refl };

    ghost numbers_differ = { λ _ _ _ _. Prim.omega arith };

    ghost still_fits = { λ _ _ _ _ _. tt };
}

// How often it was added to.
#[derive(Drop)]
struct Count {
    times: u64,
}

impl Fits<u32> for Count {
    type Mark = ();

    ghost fits = { λ _ _. Unit {0} };

    ghost tally = { λ c. c.times ∷ 0 ∷ 0 ∷ 0 ∷ 0 ∷ 0 ∷ [] };

    ghost claims = { λ _. [] };

    ghost grown = { λ _ _. Unit {0} };

    ghost six_numbers = { λ _. refl };

    ghost numbers_differ = { λ _ _ _ _. Prim.omega arith };

    ghost still_fits = { λ _ _ _ _ _. tt };
}

// A row of these values, whose name is 5.
fn start<V: Fits<u32> + Drop>(
    rt: &(impl Abort + AllocGlobal),
    values: Vec<V>,
) -> (Turns<u32, V>, Seat<u32, V>)
    requires some { 0 < vec_len values }
    requires fit { All (V.fits 5) values.items }
    requires plain { 1 < vec_len values → All (IsPlain V.tally V.claims) values.items }
    ensures row { (result.0.slots ≡ vec_len values) × (result.0.name ≡ 5) }
    ensures seat { result.1 ≡ first_seat V.tally V.claims result.0 values.items }
{
    match Turns::new(rt.alloc(), 5, values) {
        Ok(made) => made,
        Err(_) => panic!(rt; "no turns"),
    }
}

// Ends a row, and answers its values.
fn close<V: Fits<u32> + Drop>(
    rt: &(impl Abort + AllocGlobal),
    turns: Turns<u32, V>,
    seat: Seat<u32, V>,
) -> Vec<V>
    requires row { seat.row ≡ turns }
    requires all { seat.parts ≡ all_parts }
    requires free { seat.turn ≡ None }
    ensures { vec_len result ≡ turns.slots }
{
    match turns.close(rt.alloc(), seat) {
        Ok(values) => values,
        Err(_) => panic!(rt; "no values"),
    }
}

// The values are these numbers.
fn same_numbers(rt: &impl Abort, values: &[Number], wanted: &[u64]) {
    same(rt, values.len(), wanted.len());
    for (number, value) in values.iter().zip(wanted) {
        same(rt, number.value, *value);
    }
}

#[test]
fn one_value_is_taken_and_given(rt: HostRuntime) {
    let values = vec![in rt.alloc(); Number { value: 7 }].expect(&rt, "no values");
    let (turns, mut seat) = start(&rt, values);
    let mut held = turns.take(&rt, &mut seat, 0);
    same(&rt, held.value().value, 7);
    *held.value_mut() = Number { value: 8 };
    turns.give(&mut seat, held);
    let values = close(&rt, turns, seat);
    same_numbers(&rt, values.as_slice(), &[8]);
}

// Takes the value of a slot, adds one to it, and answers what it was.
fn add_one<R: Wait + Clock>(
    rt: &R,
    turns: &Turns<u32, Number>,
    seat: &mut Seat<u32, Number>,
    slot: u32,
) -> u64
    requires { (seat.old.row ≡ turns.now) × (seat.old.turn ≡ None) × (slot < turns.now.slots) }
    ensures { (seat.new.row ≡ turns.now) × (seat.new.turn ≡ None) × (seat.new.parts ≡ seat.old.parts) }
{
    let mut held = turns.take(rt, seat, slot);
    let value = held.value().value;
    *held.value_mut() = Number {
        value: value.wrapping_add(1),
    };
    turns.give(seat, held);
    value
}

// No clause says which value stands in which slot: `new`, `renew` and `close` keep them in their order.
#[test]
fn values_keep_their_slots(rt: HostRuntime) {
    let alloc = rt.alloc();
    let values = vec![in alloc;
        Number { value: 10 },
        Number { value: 20 },
        Number { value: 30 },
    ];
    let (turns, mut seat) = start(&rt, values.expect(&rt, "no values"));
    same(&rt, add_one(&rt, &turns, &mut seat, 0), 10);
    same(&rt, add_one(&rt, &turns, &mut seat, 1), 20);
    let Ok((turns, mut seat)) = turns.renew(alloc, seat, 6) else {
        panic!(rt; "no turns")
    };
    same(&rt, add_one(&rt, &turns, &mut seat, 0), 11);
    same(&rt, add_one(&rt, &turns, &mut seat, 2), 30);
    let values = close(&rt, turns, seat);
    same_numbers(&rt, values.as_slice(), &[12, 21, 31]);
}

// Adds one to the first value, so many times.
fn add<R: Wait + Clock>(
    rt: &R,
    turns: &Turns<u32, Count>,
    mut seat: Seat<u32, Count>,
    times: u32,
) -> Seat<u32, Count>
    requires { (seat.row ≡ turns.now) × (seat.turn ≡ None) × (turns.now.slots ≡ 1) }
    ensures { (result.row ≡ turns.now) × (result.turn ≡ None) × (result.parts ≡ seat.parts) }
{
    for _ in 0..times {
        let mut held = turns.take(rt, &mut seat, 0);
        let count = held.value_mut();
        count.times = count.times.saturating_add(1);
        turns.give(&mut seat, held);
    }
    seat
}

// A row of one count.
fn start_count(rt: &(impl Abort + AllocGlobal)) -> (Turns<u32, Count>, Seat<u32, Count>)
    ensures row { (result.0.slots ≡ 1) × (result.1.row ≡ result.0) }
    ensures seat { (result.1.parts ≡ all_parts) × (result.1.turn ≡ None) }
{
    let values = vec![in rt.alloc(); Count { times: 0 }].expect(rt, "no values");
    start(rt, values)
}

// Ends a row of one count, which was added to so many times.
fn close_count(
    rt: &(impl Abort + AllocGlobal),
    turns: Turns<u32, Count>,
    seat: Seat<u32, Count>,
    times: u64,
)
    requires row { seat.row ≡ turns }
    requires all { seat.parts ≡ all_parts }
    requires free { seat.turn ≡ None }
{
    let values = close(rt, turns, seat);
    surely_same(rt, values.len(), 1);
    same(rt, values[0].times, times);
}

#[test]
fn two_threads_take_turns(rt: HostRuntime) {
    let (turns, mut first) = start_count(&rt);
    let second = turns
        .split(rt.alloc(), &mut first)
        .expect(&rt, "no second seat");
    let (mut first, second) = thread::join(
        &rt,
        || add(&rt, &turns, first, 1000),
        || add(&rt, &turns, second, 1000),
    );
    turns.join(&mut first, second);
    close_count(&rt, turns, first, 2000);
}

// So many seats, each split from the first.
fn split_off(
    alloc: Global,
    turns: &Turns<u32, Count>,
    first: &mut Seat<u32, Count>,
    count: u32,
) -> Result<Vec<Seat<u32, Count>>, Memory>
    requires { (first.old.row ≡ turns.now) × (first.old.turn ≡ None) × (count < first.old.parts) }
    ensures ok { IfOk result (λ seats. (vec_len seats ≡ count)
        × All (λ s. (s.row ≡ turns.now) × (s.turn ≡ None) × (s.parts ≡ 1)) seats.items) }
    ensures first { IfOk result (λ _. (first.new.row ≡ turns.now) × (first.new.turn ≡ None)
        × (first.new.parts + count ≡ first.old.parts)) }
{
    let mut seats = Vec::new(alloc);
    for _ in 0..count {
        seats.push(turns.split(alloc, first)?)?;
    }
    Ok(seats)
}

// Puts the seats back into the first.
fn join_all(
    turns: &Turns<u32, Count>,
    first: &mut Seat<u32, Count>,
    mut seats: Vec<Seat<u32, Count>>,
)
    requires first { (first.old.row ≡ turns.now) × (first.old.turn ≡ None) }
    requires seats { All (λ s. (s.row ≡ turns.now) × (s.turn ≡ None) × (s.parts ≡ 1)) seats.items }
    ensures { (first.new.row ≡ turns.now) × (first.new.turn ≡ None)
        × (first.new.parts ≡ first.old.parts + vec_len seats) }
{
    while let Some(seat) = seats.pop() {
        turns.join(first, seat);
    }
}

#[test]
fn eight_threads_take_turns(rt: HostRuntime) {
    let (turns, mut first) = start_count(&rt);
    let seats = split_off(rt.alloc(), &turns, &mut first, 8).expect(&rt, "no seats");
    let seats = thread::map_vec(&rt, seats, &|seat| add(&rt, &turns, seat, 1000));
    join_all(&turns, &mut first, seats.expect(&rt, "no seats"));
    close_count(&rt, turns, first, 8000);
}

// A clock that stands still: it counts the sleeps and keeps how long the last was to be, in microseconds.
#[derive(Drop)]
struct Sleeps {
    count: AtomicU64,
    last: AtomicU64,
}

impl Clock for Sleeps {
    fn monotonic(&self) -> io::Result<Duration> {
        Ok(Duration::from_secs(0))
    }

    fn since_1970(&self) -> io::Result<Duration> {
        Ok(Duration::from_secs(0))
    }

    fn sleep(&self, duration: Duration) {
        self.count.fetch_add(1, Ordering::SeqCst);
        self.last
            .store(u64::from(duration.subsec_micros()), Ordering::SeqCst);
    }
}

// No clause sees how long a thread waits.
#[test]
fn who_waits_yields_and_then_sleeps(rt: HostRuntime) {
    let clock = Sleeps {
        count: AtomicU64::new(0),
        last: AtomicU64::new(0),
    };
    let mut pause = Pause::new();
    for _ in 0..32 {
        pause.wait(&clock);
    }
    same(&rt, clock.count.load(Ordering::SeqCst), 0);
    let micros = [16u64, 32, 64, 128, 256, 512, 512, 512];
    for wanted in micros {
        pause.wait(&clock);
        same(&rt, clock.last.load(Ordering::SeqCst), wanted);
    }
    same(&rt, clock.count.load(Ordering::SeqCst), 8);
}
