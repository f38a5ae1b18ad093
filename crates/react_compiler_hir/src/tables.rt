// Tables read by position.
ghost use Rattle.std.specs.Prelude.{◌≡◌};
ghost use Rattle.std.specs.List.{slice_get};

// What stands at a position, if the table reaches that far.
pub fn row_at<T: Copy>(table: &[T], position: usize) -> Option<T>
    ensures { result ≡ slice_get table.now position }
{
    table.get(position).copied()
}
