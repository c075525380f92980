// The one walk over a store of places: the lowest place that passes a test.
#![tactic(auto)]

ghost use Rattle.std.specs.Prelude.{◌≡◌, ◌<◌};
ghost use Rattle.std.specs.Fn.{FnReturnsAt};
ghost use Rattle.rules.specs.Slots.{place};
ghost use Rattle.walks.specs.Seeking.{IsSought};

use rules::Sought;

// The lowest of the places of SIZE bytes that passes the test, and how many were looked at. Bytes behind the last whole place are in
// no place. It goes by number, which is what is found. The size is known here, and so to the test the length of what it is lent: it reads a place without a test of its own.
pub fn seek<const SIZE: usize, F: Fn(&[u8]) -> bool>(store: &[u8], passes: F) -> Sought
    requires calls { F.IsAlwaysCallable passes }
    requires size { 0 < SIZE }
    ensures { IsSought (FnReturnsAt F.Fn passes) SIZE store.now result }
{
    for i in 0..store.len() / SIZE {
        let start = i * SIZE;
        let end = start + SIZE;
        if passes(&store[start..end]) {
            return Sought {
                found: Some(i),
                looked: i + 1,
            };
        }
    }
    Sought {
        found: None,
        looked: store.len() / SIZE,
    }
}

// The bytes of place i as far as they are there: behind the last whole place there is only what is left, and then nothing.
fn left_at<const SIZE: usize>(store: &[u8], i: usize) -> &[u8]
    requires { 0 < SIZE }
    ensures { result.now ≡ place SIZE store.now i }
{
    if i <= store.len() / SIZE {
        return text::part_of(store, i * SIZE, SIZE);
    }
    &store[0..0]
}

// Place i of the store. A whole place is told apart first: with its length known, what is read from it is read without a test.
pub fn place_at<const SIZE: usize>(store: &[u8], i: usize) -> &[u8]
    requires { 0 < SIZE }
    ensures { result.now ≡ place SIZE store.now i }
{
    if i < store.len() / SIZE {
        let start = i * SIZE;
        let end = start + SIZE;
        return &store[start..end];
    }
    left_at::<SIZE>(store, i)
}
