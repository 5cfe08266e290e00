// The bodies of elements, 256 bytes to a place. Emptying a body is by its length, and writes no byte of it.
ghost use Rattle.std.specs.Prelude.{◌≡◌, ◌≤◌, length};
ghost use Rattle.places.specs.BodyStores.{blank_body, body_at, bytes_of, cleared, emptied, filled, no_bodies, stored};

use crate::row::change_at;

#[derive(Clone, Copy)]
struct Body {
    bytes: [u8; 256],
    length: u16,
}

#[derive(Drop)]
pub struct BodyStore {
    bodies: [Body; 64],
}

impl Body {
    fn blank() -> Body
        ensures { result ≡ blank_body }
    {
        Body {
            bytes: [0; 256],
            length: 0,
        }
    }

    fn bytes(&self) -> &[u8]
        ensures { result.now ≡ bytes_of self.now }
    {
        self.bytes
            .get(..usize::from(self.length))
            .unwrap_or_default()
    }

    // What lies behind the new bytes stays.
    fn fill(&mut self, bytes: &[u8])
        requires { length bytes.now ≤ 256 }
        ensures { self.new ≡ filled self.old bytes.now }
    {
        self.bytes[..bytes.len()].copy_from_slice(bytes);
        self.length = bytes.len() as u16;
    }

    fn clear(&mut self)
        ensures { self.new ≡ cleared self.old }
    {
        self.length = 0;
    }
}

impl BodyStore {
    pub fn new() -> BodyStore
        ensures { result ≡ no_bodies }
    {
        BodyStore {
            bodies: [Body::blank(); 64],
        }
    }

    // A part of the store itself.
    pub fn body(&self, place: usize) -> &[u8]
        ensures { result.now ≡ body_at self.now place }
    {
        self.bodies.get(place).map_or(&[], |body| body.bytes())
    }

    // The only function that writes bytes. What lies behind the body stays; a body above 256 bytes is not taken.
    pub fn write(&mut self, place: usize, body: &[u8])
        ensures { self.new ≡ stored self.old place body.now }
    {
        if body.len() <= 256 {
            change_at(&mut self.bodies, place, |held| held.fill(body));
        }
    }

    pub fn empty(&mut self, place: usize)
        ensures { self.new ≡ emptied self.old place }
    {
        change_at(&mut self.bodies, place, |held| held.clear());
    }
}
