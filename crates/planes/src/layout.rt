// How tall planes over lent memory are.
ghost use Rattle.std.specs.Prelude.{◌≡◌, min};

// How tall a plane is that holds so many whole courses: no more than 1024 count. The cast narrows a number that fits.
pub(crate) fn capped(courses: usize) -> u16
    ensures { result ≡ min 1024 courses }
{
    courses.min(1024) as u16
}
