// Numbers in order.
ghost use Rattle.std.specs.Prelude.{◌≡◌, ℕ, List, [], Some, false, IfSome, IfNone, eqb, slice_get};
ghost use Rattle.std.specs.List.Retain.{IsFiltered, DiffersFromLast};
ghost use Rattle.o2_model.specs.Words.{among};
ghost use Rattle.o2_model.specs.Orders.{rising};

// The same numbers without those that equal the one before.
fn without_repetitions(numbers: Vec<u64>) -> Vec<u64>
    ensures { IsFiltered (DiffersFromLast eqb) [] numbers.items result.items }
{
    let mut numbers = numbers;
    numbers.dedup();
    numbers
}

/// The same numbers rising, each once. No memory is taken.
pub fn in_order(numbers: Vec<u64>) -> Vec<u64>
    ensures { result.items ≡ rising numbers.items }
{
    let mut numbers = numbers;
    numbers.sort_unstable();
    without_repetitions(numbers)
}

/// The index at which the number stands among numbers that rise, as those of `in_order` do; None where it is not one of
/// them. The search halves what is left of them at each step.
pub fn find_number(numbers: &[u64], number: u64) -> Option<usize>
    ensures found { IfSome result (λ at. slice_get numbers.now at ≡ Some number) }
    ensures none { IfNone result ((ns : List ℕ) → numbers.now ≡ rising ns → among ns number ≡ false) }
{
    match numbers.binary_search(&number) {
        Ok(at) => Some(at),
        Err(_) => None,
    }
}
