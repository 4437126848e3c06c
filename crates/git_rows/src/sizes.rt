//! How much memory each machine takes, with the default allocator. A machine has no other bytes but the arguments that it keeps, which are
//! behind its pointers and within its limit.

use git_client::Client;
use git_msg::{RequestReader, RequestStream};
use git_pkt::PacketReader;
use git_server::{ListRepo, Server, SharedRepo};
use std::alloc::Global;

/// The maximum size of a machine with a buffer for one packet. The packet takes 65,520 bytes of it.
const MACHINE: usize = 66_656;

/// The maximum size of a reader of requests, which has no such buffer.
const READER: usize = 512;

const _: () = prove!(size_of::<RequestReader<Global>>() <= READER);

const _: () = prove!(size_of::<PacketReader>() <= MACHINE);

const _: () = prove!(size_of::<RequestStream<Global>>() <= MACHINE);

const _: () = prove!(size_of::<Client<Global>>() <= MACHINE);

const _: () = prove!(size_of::<Server<ListRepo, Global>>() <= MACHINE);

const _: () = prove!(size_of::<Server<SharedRepo, Global>>() <= MACHINE);
