// Sets or policies that later lines of a file name by number. They are numbered from 0 in the order of their lines, and
// the places after the last one are empty.
ghost use Rattle.std.specs.Prelude.{◌≡◌, ◌<◌, length, IfOk, OnErr, Some, slice_get};

use crate::fault::Fault;

// Returns the value with a number.
pub(crate) fn known<T: Copy + Drop>(values: &[Option<T>], number: u64) -> Result<T, Fault>
    ensures { IfOk result (λ value. slice_get values.now number ≡ Some (Some value)) }
{
    match values.get(number as usize) {
        Some(Some(value)) => Ok(*value),
        _ => Err(Fault::Malformed),
    }
}

// Returns the number of the next value, if there is a place for it.
pub(crate) fn next_number<T: Drop>(values: &[Option<T>]) -> Result<usize, Fault>
    ensures { IfOk result (λ number. number < length values.now) }
{
    values
        .iter()
        .position(|value| value.is_none())
        .ok_or(Fault::Malformed)
}

// Keeps the next value, whose line gives its number.
pub(crate) fn keep<T: Copy + Drop>(
    values: &mut [Option<T>],
    number: u64,
    value: T,
) -> Result<(), Fault>
    ensures { OnErr result (values.new ≡ values.old) }
{
    let next = next_number(values)?;
    if next as u64 != number {
        return Err(Fault::Malformed);
    }
    values[next] = Some(value);
    Ok(())
}
