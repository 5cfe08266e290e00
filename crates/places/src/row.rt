// Rows that are changed place by place; a place past the end has nothing to change.
ghost use Rattle.std.specs.Prelude.{◌≡◌, ◌<◌, ◌≤◌, length, slice_index_or, slice_set};
ghost use Rattle.std.specs.Fn.{FnOnceReturnsAtMut};

pub fn change_at<T, F: FnOnce(&mut T)>(row: &mut [T], place: usize, change: F)
    requires { F.IsAlwaysCallable change }
    ensures past { length row.old ≤ place → row.new ≡ row.old }
    ensures within { place < length row.old → (d : T) → (after : T) × FnOnceReturnsAtMut F.FnOnce change (slice_index_or row.old place d) tt after × (row.new ≡ slice_set row.old place after) }
{
    // Stays: of a slice's `get_mut` a proof knows no element once the borrow is over.
    if place < row.len() {
        change(&mut row[place]);
    }
}

pub fn put<T: Copy>(row: &mut [T], place: usize, value: T)
    ensures { row.new ≡ slice_set row.old place value }
{
    change_at(row, place, |held| *held = value);
}
