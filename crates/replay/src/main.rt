// Replays stored answers of the Rust: each case of standard input is fitted, and every number and place is compared.
// The input is words of 8 bytes, little-endian; oracle/src/replay.rs, which writes it, says what stands where.
#![tactic(auto)]

ghost use Rattle.std.specs.Prelude.{◌≤◌, ◌<◌};

// The word past the case that starts at word a.
fn past(s: &[u8; 131072], a: usize) -> usize
    requires { a < 16384 }
    ensures { result ≤ 40000 }
{
    let n = stored::count_at(s, a + 3, 168);
    let k = stored::count_at(s, a + 1, n);
    stored::past(s, a + 13 + n, n, n - k)
}

// A line that says that case i, of group g, differs.
fn print_differs(i: u64, g: u64) {
    io::write_all(1, b"case ");
    io::print_decimal(1, i);
    io::write_all(1, b" of group ");
    io::print_decimal(1, g);
    io::write_all(1, b" differs\n");
}

// Every case in turn: how many are equal.
fn replayed(s: &[u8; 131072], cases: u64) -> u64 {
    let mut a: usize = 1;
    let mut equal: u64 = 0;
    for i in 0..cases {
        if a >= 16384 {
            break;
        }
        if rerun::equal_at(s, a) {
            equal += 1;
        } else {
            print_differs(i, stored::word(s, a));
        }
        a = past(s, a);
    }
    equal
}

fn main() {
    let mut s = [0u8; 131072];
    io::read_full(0, &mut s);
    let cases = stored::word(&s, 0);
    let equal = replayed(&s, cases);
    io::print_decimal(1, equal);
    io::write_all(1, b" of ");
    io::print_decimal(1, cases);
    io::write_all(1, b" equal\n");
}
