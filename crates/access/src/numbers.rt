// From the bytes of a component to its number.
ghost use Rattle.std.specs.Prelude.{◌≡◌, true, ◌||◌, ◌+◌, ◌^◌, ◌<◌, ◌≤◌, eqb, length};
ghost use Rattle.laws.specs.Bytes.{little_at};
ghost use Rattle.tables.specs.Elements.{component_size, is_size};
ghost use Rattle.access.specs.Numbers.{decode};
ghost use Rattle.access.specs.Readings.{number_at};

// The number in the bytes from `at` on, as many as a component or none. No loop: a reading comes here each time.
pub(crate) fn little_at(file: &[u8], at: usize, size: u32) -> u64
    requires size_in_bounds { at + size ≤ length file.now }
    requires size_value { (is_size size || eqb size 0) ≡ true }
    ensures { (result ≡ little_at file.now at size) × (result < 256 ^ size) }
{
    match size {
        1 => u64::from(file[at]),
        2 => u64::from(u16::from_le_bytes([file[at], file[at + 1]])),
        4 => u64::from(u32::from_le_bytes([file[at], file[at + 1], file[at + 2], file[at + 3]])),
        _ => 0,
    }
}

fn decoded(component_type: u32, n: u64) -> i64
    requires { n < 256 ^ component_size component_type }
    ensures { result ≡ decode component_type n }
{
    match component_type {
        5120 => i64::from((n as u8).cast_signed()),
        5122 => i64::from((n as u16).cast_signed()),
        _ => n as i64,
    }
}

// The component of this type, of so many bytes, that starts at byte `at`.
pub(crate) fn number_at(file: &[u8], component_type: u32, size: u32, at: usize) -> i64
    requires size_value { size ≡ component_size component_type }
    requires size_in_bounds { at + size ≤ length file.now }
    ensures { result ≡ number_at file.now component_type at }
{
    decoded(component_type, little_at(file, at, size))
}
