// What a record has to bring along to stand in an ordered row: a total order.
ghost use Rattle.std.specs.Prelude.{◌≡◌, Bool};
ghost use Rattle.rows.specs.Order.{Total, same};

// A record that carries a total order. Not `Ord`: the order is a test, as the rules state it, and `Ord` would bring
// three-way answers and `==` into every definition.
pub trait TotalOrder: Copy {
    ghost earlier: { Self → Self → Bool };

    ghost total: { Total earlier };

    // Whether this record comes before the other.
    fn before(&self, other: &Self) -> bool
        ensures { result ≡ earlier self.now other.now };
}

// Whether neither record comes before the other: in a total order these are equal records. The order needs no `==` beside it.
pub(crate) fn alike<T: TotalOrder>(one: &T, other: &T) -> bool
    ensures { result ≡ same T.earlier one.now other.now }
{
    !one.before(other) && !other.before(one)
}
