//! The primary key of a row: the order and the line within it (TPC-H clause 1.4.2).
use std::marker::Model;

/// L_ORDERKEY and L_LINENUMBER. A value of this type is always within the ranges of `IsKey`. Keys stand by their order,
/// and those of one order by their line (`key_cmp`).
#[derive(Clone, Copy, Debug, PartialEq, Eq, PartialOrd, Ord)]
pub struct Key {
    /// L_ORDERKEY, 1 to 4,294,967,295.
    pub order: u32,
    /// L_LINENUMBER, 1 to 7.
    pub line: u8,
}

impl Model for Key {
    ghost use Rattle.cubit_base.specs.Key.{KeyValue, IsKey};

    ghost Value = { KeyValue };

    ghost view = { λ k. record { order = k.order; line = k.line } };

    ghost invariant = { λ k. IsKey (record { order = k.order; line = k.line }) };

    ghost inverse = { λ v. record { order = v.order; line = v.line } };
}

#[cfg(test)]
mod tests {
    use super::*;

    #[test]
    fn keys_stand_by_order_and_then_by_line(rt: HostRuntime) {
        let keys = [(1, 1), (1, 7), (2, 1), (4_294_967_295, 7)];
        for i in 1..keys.len() {
            let (order, line) = keys[i - 1];
            let (next_order, next_line) = keys[i];
            assert!(rt;
                Key { order, line }
                    < Key {
                        order: next_order,
                        line: next_line
                    },
                "at {i}"
            );
        }
    }
}
