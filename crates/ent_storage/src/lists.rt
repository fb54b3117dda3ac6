//! A list that takes over the items of another.
ghost use Rattle.std.specs.Prelude.{◌≡◌, ◌≤◌, length, vec_capacity};

/// Makes a list one of these items. There is room for them.
pub fn overwrite<T: Copy + Drop>(list: &mut Vec<T>, items: &[T])
    requires { length items.now ≤ vec_capacity list.old }
    ensures items { list.new.items ≡ items.now }
    ensures room { vec_capacity list.old ≤ vec_capacity list.new }
{
    list.clear();
    list.extend_from_slice(items).unwrap();
}
