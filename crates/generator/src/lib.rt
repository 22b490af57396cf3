// The generator of a workload (request A.10): 32-bit xorshift. A draw moves its number on.
#![tactic(auto)]

ghost use Rattle.std.specs.Prelude.{◌≡◌};
ghost use Rattle.generator.specs.Generator.{number_after, seed_read};

// A generator: the number that the next draw starts from.
#[repr(C)]
#[derive(Clone, Copy)]
pub struct Generator {
    pub number: u32,
}

// The number after a draw.
#[tactic(auto, unfolding(crate::specs::Generator::number_after, crate::specs::Generator::xor_left, crate::specs::Generator::xor_right))]
pub fn step(number: u32) -> u32
    ensures { result ≡ number_after number }
{
    let a = number ^ (number << 13);
    let b = a ^ (a >> 17);
    b ^ (b << 5)
}

// Moves a generator on, and gives the number after the draw.
pub fn draw(generator: &mut Generator) -> u32
    ensures { (result ≡ number_after generator.old.number) × (generator.new.number ≡ number_after generator.old.number) }
{
    let number = step(generator.number);
    generator.number = number;
    number
}

// The generator after a draw. It is lent to `draw` here and nowhere else.
pub fn drawn(generator: Generator) -> Generator
    ensures { result.number ≡ number_after generator.number }
{
    let mut moved = generator;
    draw(&mut moved);
    moved
}

// The generator of a seed.
pub fn seeded(seed: u32) -> Generator
    ensures { result.number ≡ seed_read seed }
{
    Generator {
        number: seed.max(1),
    }
}
