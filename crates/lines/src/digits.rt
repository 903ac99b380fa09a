// A number's digits: how many they are, and putting them where they belong.
ghost use Rattle.std.specs.Prelude.{◌+◌, ◌≤◌, ◌<◌, ◌≡◌, [], ◌∷◌, ◌++◌, length};
ghost use Rattle.std.proofs.lemmas.List.Edits.{sets};
ghost use Rattle.lines.specs.Text.{decimal};
ghost use Rattle.lines.specs.Writing.{two, Room, Put};

// At most four: no division.
#[tactic(auto, using(crate::proofs::Decimal::size_one, crate::proofs::Decimal::size_more))]
fn few_places(number: u64) -> usize
    requires { number < 10000 }
    ensures { result ≡ length (decimal number) }
{
    match number {
        0..=9 => 1,
        10..=99 => 2,
        100..=999 => 3,
        _ => 4,
    }
}

// Four places a turn, since each turn costs a division.
#[tactic(auto, using(crate::proofs::Decimal::size_by_four, crate::proofs::Decimal::size_64))]
pub(crate) fn places(number: u64) -> usize
    ensures { result ≡ length (decimal number) }
{
    let mut left = number;
    let mut count: usize = 0;
    while 10000 <= left {
        left /= 10000;
        count += 4;
    }
    count + few_places(left)
}

// Every writer takes the buffer and the place in it. As fields of one struct they go through memory, 18% more
// instructions a line. With a slice of what is left of the buffer, `put_label` and `put_end`, whose text is put in
// several parts, got no proof.

// Both digits, a zero in front too.
pub(crate) fn put_two(out: &mut [u8], at: usize, number: u8)
    requires small { number < 100 }
    requires room { at + 2 ≤ length out.old }
    ensures { out.new ≡ sets out.old at (two number) }
{
    out[at] = b'0' + number / 10;
    out[at + 1] = b'0' + number % 10;
}

#[tactic(auto, using(crate::proofs::Decimal::put_by_library, crate::proofs::Decimal::library, crate::proofs::Decimal::size_64))]
pub(crate) fn put_digits(out: &mut [u8], at: usize, number: u64) -> usize
    requires { at + length (decimal number) ≤ length out.old }
    ensures { Put out.old out.new at result (decimal number) }
{
    let end = at + places(number);
    itoa::write_digits(number, out, end);
    end
}

// A number and the byte after it. One digit, as most values of a line have, needs no call.
#[tactic(auto, using(crate::proofs::Decimal::one, crate::proofs::Stores::stores))]
pub(crate) fn put_number(out: &mut [u8], at: usize, number: u64, after: u8) -> usize
    requires { Room out.old at (decimal number) }
    ensures { Put out.old out.new at result (decimal number ++ after ∷ []) }
{
    if number < 10 {
        out[at] = b'0' + number as u8;
        out[at + 1] = after;
        return at + 2;
    }
    let end = put_digits(out, at, number);
    out[end] = after;
    end + 1
}
