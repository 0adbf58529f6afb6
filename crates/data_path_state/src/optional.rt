// What the record does with one of its fields that may be missing, whatever the field's type.
ghost use Rattle.std.specs.Prelude.{◌≡◌, ◌||◌, cond};
ghost use Rattle.wire.specs.Writing.{Put};
ghost use Rattle.data_path_fields.specs.Optional.{none, optional_bytes, mended, absent_zero};

use data_path_fields::{Field, Optional};

// The place behind the bytes, which are none where the field is missing.
pub(crate) fn put_at<T: Field>(field: Optional<T>, buf: &mut [u8], at: usize) -> usize
    ensures { Put buf.old at (optional_bytes T.bytes field) result buf.new }
{
    if !field.present {
        return at;
    }
    field.value.put_at(buf, at)
}

// A value that is there is left as it is.
pub(crate) fn mend<T: Field>(field: Optional<T>) -> Optional<T>
    ensures { result ≡ mended T.zero field }
{
    if field.present {
        field
    } else {
        Optional::default()
    }
}

// Whether the value is zero, unless it is there.
pub(crate) fn absent_zero<T: Field>(field: Optional<T>) -> bool
    ensures { result ≡ absent_zero (λ x. T.eq x T.zero) field }
{
    field.present | (field.value == T::default())
}
