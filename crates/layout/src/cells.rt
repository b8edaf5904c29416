// Values that are eight bytes on flash, 64 to a page.
ghost use Rattle.std.specs.Prelude.{◌≡◌, ℕ, List, length, Some};
ghost use Rattle.layout.specs.Bytes.{Decodes};

pub trait Cell: Copy {
    // the value's bytes
    ghost bytes: { Self → List ℕ };

    // what holds of a value that may stand on flash
    ghost proper: { Self → Type 0 };

    // The value's bytes.
    fn encode(self) -> [u8; 8]
        ensures { result ≡ bytes self };

    // The value with these bytes, if there is one.
    fn decode(from: &[u8]) -> Option<Self>
        ensures { Decodes proper bytes from.now result };

    ghost eight: { (x : Self) → length (bytes x) ≡ 8 };

    ghost apart: { (x y : Self) → proper x → proper y → bytes x ≡ bytes y → x ≡ y };
}

// A proper value comes back from its bytes.
pub fn read_back<C: Cell>(value: C) -> Option<C>
    ensures { C.Cell.proper value → result ≡ Some value }
{
    let bytes = value.encode();
    C::decode(&bytes)
}
