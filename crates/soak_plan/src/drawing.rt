// Numbers drawn one after another.
ghost use Rattle.std.specs.Prelude.{◌≡◌, ◌<◌, ◌≤◌};
ghost use Rattle.soak_plan.specs.Drawing.{drawn, next_number};

// The number after this one.
pub fn next_number(number: u32) -> u32
    ensures { result ≡ next_number number }
{
    ((u64::from(number) * 1_664_525 + 1_013_904_223) % 4_294_967_296) as u32
}

// What is drawn from a number, below `bound`.
pub fn drawn(bound: u32, number: u32) -> u8
    requires some { 0 < bound }
    requires few { bound ≤ 256 }
    ensures drawn { result ≡ drawn bound number }
    ensures below { result < bound }
{
    ((number / 65_536) % bound) as u8
}
