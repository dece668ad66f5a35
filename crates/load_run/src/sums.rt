//! Sums of structs, field by field.

/// Adds up two structs of one type, field by field. The listed fields must be all fields of the
/// type.
macro_rules! added_up {
    ($sum:ident: $first:tt + $second:tt; $($field:ident),+) => {
        $sum { $($field: $first.$field + $second.$field),+ }
    };
}

pub(crate) use added_up;
