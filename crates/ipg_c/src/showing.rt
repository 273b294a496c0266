//! What is told in the caller's memory.
ghost use Rattle.std.specs.Prelude.{◌≡◌};
ghost use Rattle.ipg_c.specs.Shown.{shown};

/// Shows a text, or rows, as far as the room goes.
pub fn show<T: Copy>(told: &[T], room: &mut [T])
    ensures { room.new ≡ shown told.now room.old }
{
    let count = told.len().min(room.len());
    room[..count].copy_from_slice(&told[..count]);
}
