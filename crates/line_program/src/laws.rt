//! Laws of the texts of keys and numbers, each as a function whose contract is the law.
ghost use Rattle.std.specs.Prelude.{◌≡◌, Some, decimal};
ghost use Rattle.line_program.specs.Results.{key_text};
ghost use Rattle.line_program.specs.Command.{key_of, number_of};

/// Does nothing. Its contract is a law of the program's texts: a key that is written is read as the
/// same key.
///
/// Cost: none.
pub fn key_text_law(key: &[u8])
    ensures { key_of (key_text key.now) ≡ Some key.now }
{
    let _bytes = &key[..];
}

/// Does nothing. Its contract is a law of the program's texts: a number that is written is read as
/// the same number.
///
/// Cost: none.
pub fn number_text_law(number: u64)
    ensures { number_of (decimal number) ≡ Some number }
{
    let _number = number;
}
