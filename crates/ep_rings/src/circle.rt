//! Where a circle of keys begins, and how long it is.
ghost use Rattle.std.specs.Prelude.{◌≡◌, ◌<◌, ◌==◌, IfSome, if◌then◌else◌};
ghost use Rattle.ep_rings.specs.Circles.{lengthened, without};

/// A circle of keys.
#[derive(Clone, Copy)]
pub struct Circle {
    /// The key that was put in first.
    pub first: usize,
    /// How many keys it has, at least one.
    pub len: usize,
}

impl Circle {
    /// The circle without a key, `next` being the key behind it.
    pub fn without(self, key: usize, next: usize) -> Circle
        requires { 0 < self.len }
        ensures { result ≡ without key next self }
    {
        let first = if self.first == key { next } else { self.first };
        let len = self.len - 1;
        Circle { first, len }
    }
}

/// A circle with a key more at its end, or the one that begins with it.
pub fn longer(circle: Option<Circle>, key: usize) -> Circle
    requires { IfSome circle (λ c. c.len < usize.MAX) }
    ensures { result ≡ lengthened key circle }
{
    match circle {
        None => Circle { first: key, len: 1 },
        Some(circle) => Circle {
            first: circle.first,
            len: circle.len + 1,
        },
    }
}
