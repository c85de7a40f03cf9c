// A signed number taken apart into its sign and its size, and put together again.
#![tactic(auto)]

ghost use Rattle.std.specs.Prelude.{◌≡◌, ◌<◌};
ghost use Rattle.integers.specs.Apart.{apart_of, whole_of};

// A number by its sign: up by `by`, or down by one more than `by`. So every i32 has one such form.
#[derive(Clone, Copy)]
pub struct Apart {
    pub down: bool,
    pub by: u32,
}

// A number by its sign and its size. `!n` is -n - 1, which every i32 has.
pub fn take_apart(n: i32) -> Apart
    ensures { result ≡ apart_of n }
{
    if n < 0 {
        Apart {
            down: true,
            by: !n as u32,
        }
    } else {
        Apart {
            down: false,
            by: n as u32,
        }
    }
}

// The number that has this sign and this size.
pub fn together(a: Apart) -> i32
    requires { a.by < 2147483648 }
    ensures { result ≡ whole_of a }
{
    let n = a.by as i32;
    if a.down { !n } else { n }
}
