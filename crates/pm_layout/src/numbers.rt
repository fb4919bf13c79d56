//! The numbers of the format.

/// The version of the layout that these numbers are of.
pub const VERSION: u64 = 1;

/// The most lanes that a pool has; the least is 1.
pub const MAX_LANES: u64 = 32;

/// The most zones that a pool has; the least is 1.
pub const MAX_ZONES: u64 = 32;

/// The greatest size of an object, in bytes: it takes all chunks of a zone.
pub const MAX_SIZE: u64 = 262_080;

/// The greatest generation; a lane that has it writes no more.
pub const MAX_GENERATION: u64 = 1 << 62;

/// The most bytes of a pool's layout name; the least is 1.
pub const MAX_NAME: u64 = 63;

/// The bytes of a word.
pub const WORD_BYTES: u64 = 8;

/// The bytes of a line.
pub const LINE_BYTES: u64 = 64;

/// The words of a line.
pub const LINE_WORDS: u64 = 8;

/// The bytes of a page: the pool's header is one, and so are a zone's descriptors.
pub const PAGE_BYTES: u64 = 4096;

/// The words of a page.
pub const PAGE_WORDS: u64 = 512;

/// The lines of a page.
pub const PAGE_LINES: u64 = 64;

/// The place in bytes of the word that has the root's offset.
pub const ROOT_PLACE: u64 = 512;

/// The number of that word.
pub const ROOT_WORD: u64 = 64;

/// The bytes of a lane's area.
pub const LANE_BYTES: u64 = 8192;

/// The words of a lane's area. The first lane's begins at word `PAGE_WORDS`.
pub const LANE_WORDS: u64 = 1024;

/// The lines of a lane's area.
pub const LANE_LINES: u64 = 128;

/// The word of a lane's area that has the generation.
pub const GENERATION_AT: u64 = 0;

/// The word of a lane's area that has the seal: the number of sealed entries.
pub const SEAL_AT: u64 = 1;

/// The word of a lane's area at which its redo entries begin.
pub const ENTRIES_AT: u64 = 8;

/// The most redo entries that a lane seals.
pub const REDO_ENTRIES: u64 = 64;

/// The words of a redo entry.
pub const ENTRY_WORDS: u64 = 2;

/// The line of a lane's area at which its undo slots begin.
pub const SLOTS_AT: u64 = 17;

/// The undo slots of a lane.
pub const UNDO_SLOTS: u64 = 64;

/// The words of an undo slot.
pub const SLOT_WORDS: u64 = 8;

/// The old words of an undo record: at most so many count.
pub const OLD_WORDS: u64 = 4;

/// The bytes of a zone: its page of descriptors, and its chunks.
pub const ZONE_BYTES: u64 = 266_240;

/// The words of a zone.
pub const ZONE_WORDS: u64 = 33_280;

/// The pages of a zone.
pub const ZONE_PAGES: u64 = 65;

/// The chunks of a zone.
pub const CHUNKS_PER_ZONE: u64 = 64;

/// The bytes of a chunk.
pub const CHUNK_BYTES: u64 = 4096;

/// The words of a chunk.
pub const CHUNK_WORDS: u64 = 512;

/// The lines of a chunk.
pub const LINES_PER_CHUNK: u64 = 64;

/// The bytes of the largest pool, of 32 lanes and 32 zones.
pub const MAX_POOL_BYTES: u64 = 8_785_920;

/// The low byte of a run's descriptor.
pub const RUN: u64 = 1;

/// The low byte of the descriptor of a huge block's first chunk.
pub const HUGE: u64 = 2;

/// What the rest of a descriptor counts in.
pub const DESCRIPTOR_UNIT: u64 = 256;

/// The lines of a block, for each class of runs, from the least up.
pub const CLASSES: [u64; 8] = [2, 3, 4, 5, 7, 9, 15, 31];

/// The word of a block's header line that has the object's type.
pub const KIND_AT: u64 = 0;

/// The word of a block's header line that has the object's size in bytes.
pub const SIZE_AT: u64 = 1;

/// The word of a block's header line that has the offset of the next member of its list.
pub const NEXT_AT: u64 = 2;

/// The word of a block's header line that has the offset of the member before it.
pub const PREV_AT: u64 = 3;

/// The word of a block's header line that has the offset of the head whose list it is in.
pub const LIST_AT: u64 = 4;

/// The word of a block's header line that has the offset of the first member of its own list.
pub const FIRST_AT: u64 = 5;

/// The words of a block's header line that are 0.
pub const UNUSED_AT: [u64; 2] = [6, 7];
