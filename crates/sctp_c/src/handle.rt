//! The handle that C holds: with `loose`, the only code over its pointer.

ghost use Rattle.std.specs.Prelude.{◌≡◌, Option, Some, None, option_map};
ghost use Rattle.sctp_c.specs.declared.endpoint.Endpoint.{Endpoint as EndpointValue};

use crate::endpoint::Endpoint;
use crate::loose::Loose;
use std::alloc::Global;
use std::marker::Model;

/// A socket, or none where the pointer is null. In C it is `pigeon_socket`, whose pointer C neither reads nor writes but to zero.
#[repr(C)]
#[derive(Drop)]
pub struct Handle {
    at: *mut u8,
    alloc: Global,
    pub ghost held: { Option EndpointValue },
}

impl Model for Handle {
    ghost use Rattle.std.specs.contracts.impls.GlobalAllocator.TheImpl.{ghosts};
    ghost use Rattle.sctp_c.specs.Handle.{held_at};
    ghost use Rattle.sctp_c.specs.contracts.endpoint.Endpoint.{the_row};

    ghost also_owns = { λ h. held_at (ghosts.dealloc_token h.alloc) the_row h.at h.held };
}

impl Handle {
    ghost use Rattle.std.specs.Borrow.{sem};
    ghost use Rattle.std.specs.Option.{option_copied_mut};
    ghost use Rattle.sctp_c.specs.Lending.{LendsHeld};

    /// The socket behind the pointer, for one call.
    pub(crate) fn as_mut(&mut self) -> Option<&mut Endpoint>
        ensures* writes_back { sem 𝓛 (LendsHeld self.entry result) }
        ensures value { self.old.held ≡ option_copied_mut result }
    {
        if self.at.is_null() {
            return None;
        }
        Some(unsafe { &mut *(self.at as *mut Endpoint) })
    }

    fn none(alloc: Global) -> Handle
        ensures { result.held ≡ None }
    {
        Handle {
            at: std::ptr::null_mut(),
            alloc,
        }
    }

    fn of_loose(loose: Loose<Endpoint, Global>) -> Handle
        ensures { result.held ≡ Some loose.value }
    {
        let Loose { at, alloc } = loose;
        Handle {
            at: at as *mut u8,
            alloc,
        }
    }

    fn into_loose(self) -> Option<Loose<Endpoint, Global>>
        ensures { option_map (λ l. l.value) result ≡ self.held }
    {
        let Handle { at, alloc } = self;
        if at.is_null() {
            None
        } else {
            Some(Loose {
                at: at as *mut Endpoint,
                alloc,
            })
        }
    }

    /// Takes the socket out, for one call.
    pub(crate) fn take(&mut self, alloc: Global) -> Option<Box<Endpoint>>
        ensures taken { option_map (λ b. b.value) result ≡ self.old.held }
        ensures left { self.new.held ≡ None }
    {
        match std::mem::replace(self, Handle::none(alloc)).into_loose() {
            Some(loose) => Some(loose.into_box()),
            None => None,
        }
    }

    /// Puts a socket in.
    pub(crate) fn put(&mut self, endpoint: Box<Endpoint>)
        requires empty { self.old.held ≡ None }
        ensures held { self.new.held ≡ Some endpoint.value }
    {
        *self = Handle::of_loose(Loose::of(endpoint));
    }
}
