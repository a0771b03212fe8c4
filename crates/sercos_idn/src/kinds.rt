// The lengths and display forms of operation data, and their codes in an attribute.
ghost use Rattle.std.specs.Prelude.{◌≡◌, true};
ghost use Rattle.sercos_idn.specs.Clauses.{length_code, form_code, is_length, is_form};

/// The length of a data block's operation data (IEC 61491:1995): two or four bytes, or a list of variable length whose items have one, two
/// or four bytes.
#[derive(Clone, Copy, Debug, PartialEq, Eq)]
pub enum Length {
    /// Two bytes.
    Two,
    /// Four bytes.
    Four,
    /// A list of one-byte items.
    List1,
    /// A list of two-byte items.
    List2,
    /// A list of four-byte items.
    List4,
}

impl Length {
    ghost use Rattle.std.specs.Prelude.{◌≤◌};
    ghost use Rattle.sercos_idn.specs.Codes.{is_list, item_len};

    /// Returns whether the operation data is a list of variable length.
    pub fn is_list(self) -> bool
        ensures { result ≡ is_list self }
    {
        match self {
            Length::Two | Length::Four => false,
            Length::List1 | Length::List2 | Length::List4 => true,
        }
    }

    /// Returns the number of bytes of the value, or of each item of the list: 1, 2 or 4.
    pub fn item_len(self) -> usize
        ensures value { result ≡ item_len self }
        ensures bounds { (1 ≤ result) × (result ≤ 4) }
    {
        match self {
            Length::List1 => 1,
            Length::Two | Length::List2 => 2,
            Length::Four | Length::List4 => 4,
        }
    }
}

/// How operation data is displayed (IEC 61491:1995).
#[derive(Clone, Copy, Debug, PartialEq, Eq)]
pub enum Form {
    /// Bits.
    Binary,
    /// A number without sign.
    Unsigned,
    /// A number with sign, in two's complement.
    Signed,
    /// A number in hexadecimal digits.
    Hexadecimal,
    /// Characters.
    Text,
    /// An identifier number.
    Idn,
}

/// Returns whether a code is that of a length: 1, 2, 4, 5 or 6.
pub fn is_length(code: u32) -> bool
    ensures { result ≡ is_length code }
{
    code != 0 && code != 3 && code < 7
}

/// Returns the length with a code: 1, 2, 4, 5 or 6.
pub fn length_of(code: u32) -> Length
    requires { is_length code ≡ true }
    ensures { length_code result ≡ code }
{
    match code {
        1 => Length::Two,
        2 => Length::Four,
        4 => Length::List1,
        5 => Length::List2,
        _ => Length::List4,
    }
}

/// Returns the code of a length, which an attribute has in bits 18 to 16.
pub fn length_code(length: Length) -> u32
    ensures { result ≡ length_code length }
{
    match length {
        Length::Two => 1,
        Length::Four => 2,
        Length::List1 => 4,
        Length::List2 => 5,
        Length::List4 => 6,
    }
}

/// Returns whether a code is that of a display form: 0 to 5.
pub fn is_form(code: u32) -> bool
    ensures { result ≡ is_form code }
{
    code <= 5
}

/// Returns the display form with a code: 0 to 5.
pub fn form_of(code: u32) -> Form
    requires { is_form code ≡ true }
    ensures { form_code result ≡ code }
{
    match code {
        0 => Form::Binary,
        1 => Form::Unsigned,
        2 => Form::Signed,
        3 => Form::Hexadecimal,
        4 => Form::Text,
        _ => Form::Idn,
    }
}

/// Returns the code of a display form, which an attribute has in bits 22 to 20.
pub fn form_code(form: Form) -> u32
    ensures { result ≡ form_code form }
{
    match form {
        Form::Binary => 0,
        Form::Unsigned => 1,
        Form::Signed => 2,
        Form::Hexadecimal => 3,
        Form::Text => 4,
        Form::Idn => 5,
    }
}
