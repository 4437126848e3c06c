//! The answer to one `object-info`, gitprotocol-v2(5), over a store that is asked: the size of one object after another.

ghost use Rattle.std.specs.Prelude.{◌≡◌, ◌<◌, [], Some, length, slice_get};
ghost use Rattle.git_names.specs.ObjectName.{ObjectName};
ghost use Rattle.git_host.specs.FetchPlaces.{Holds};
ghost use Rattle.git_host.specs.SizesPlaces.{size_line};

use git_msg::{Info, ObjectInfo, put_info, put_line};
use git_names::Oid;
use git_pkt::{Hold, Packet, put};
use std::alloc::Allocator;

/// How far the answer has come: what is sent or asked next.
#[derive(Clone, Copy)]
enum SizesPlace {
    // The line that names the attribute that each object's line has.
    Header,
    // The size of the object at this place, or the flush where there is none.
    Object(usize),
    Whole,
}

/// What is to be done next for an answer about sizes.
#[derive(Clone, Copy, Debug)]
pub enum SizesStep {
    /// There is a packet to send.
    Packet,
    /// The size of the object at this place of the request.
    AskSize(usize),
    /// The answer is whole.
    Whole,
}

/// The answer to one `object-info`, a packet at a time.
#[derive(Drop)]
pub struct SizesAnswer<A: Allocator + Copy> {
    request: ObjectInfo<A>,
    place: SizesPlace,
}

impl<A: Allocator + Copy> SizesAnswer<A> {
    ghost use Rattle.git_host.specs.SizesPlaces.{Asks, AsksStill, IsAsking, Sizes, StepsSizes, RepresentsSizes, sizes_asked, sizes_request};

    /// The answer to this request, before its first packet.
    pub fn new(request: ObjectInfo<A>) -> SizesAnswer<A>
        ensures request { sizes_request result ≡ request }
        ensures represents { RepresentsSizes [] [] result }
    {
        SizesAnswer {
            request,
            place: SizesPlace::Header,
        }
    }

    /// The request that is answered.
    pub fn request(&self) -> &ObjectInfo<A>
        ensures { result.now.asked ≡ sizes_asked self.now }
    {
        &self.request
    }

    /// Gives the next packet, or what is to be done in its place.
    pub fn next(&mut self, hold: &mut Hold) -> SizesStep
        ensures steps { StepsSizes self.old result hold.new.items self.new }
        ensures asks { AsksStill self.old result self.new }
    {
        match self.place {
            SizesPlace::Header => {
                put_line(hold, b"size", b"");
                self.place = SizesPlace::Object(0);
                SizesStep::Packet
            }
            SizesPlace::Object(at) => match self.request.oids().get(at) {
                Some(_) => SizesStep::AskSize(at),
                None => {
                    put(hold, Packet::Flush);
                    self.place = SizesPlace::Whole;
                    SizesStep::Packet
                }
            },
            SizesPlace::Whole => SizesStep::Whole,
        }
    }

    /// Whether a size is asked.
    pub(crate) fn asks(&self) -> bool
        ensures { Asks self.now result }
    {
        match self.place {
            SizesPlace::Object(at) => at < self.request.oids().len(),
            _ => false,
        }
    }

    /// The size of the object that is asked about, or that the store does not have it: its line is sent. Returns whether that was asked.
    pub fn size(&mut self, size: Option<u64>, hold: &mut Hold) -> bool
        ensures { Sizes size self.old result hold.new.items self.new }
    {
        let SizesPlace::Object(at) = self.place else {
            return false;
        };
        let oids = self.request.oids();
        if at < oids.len() {
            put_size(hold, oids, at, size);
            self.place = SizesPlace::Object(at + 1);
            return true;
        }
        false
    }
}

// Makes the hold the line of the object at this place.
fn put_size(hold: &mut Hold, oids: &[Oid], at: usize, size: Option<u64>)
    requires { at < length oids.now }
    ensures { (id : ObjectName) → slice_get oids.now at ≡ Some id → Holds hold.new.items (size_line size id) }
{
    put_info(hold, &Info { id: oids[at], size });
}
