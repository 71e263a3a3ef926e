// What document 01 asks of the single bytes of a message, for readers and builders alike.
// It is the `reply_rule` of specs/Layout.antt.
ghost use Rattle.std.specs.Prelude.{◌≡◌, ◌&&◌, eqb, ltb};
ghost use Rattle.message_rules.specs.Status.{reserved_bits};

// Returns whether the result and the type of a Value are allowed: each is 0 or 1.
pub fn value_allowed(res: u8, kind: u8) -> bool
    ensures { result ≡ ltb res 2 && ltb kind 2 }
{
    res < 2 && kind < 2
}

// Returns whether a timing's status is allowed: its bits 5 to 2 are 0.
pub fn status_allowed(status: u8) -> bool
    ensures { result ≡ eqb (reserved_bits status) 0 }
{
    status / 4 % 16 == 0
}
