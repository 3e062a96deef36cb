//! Where the parts of a store lie in its file, and the numbers of its format.

ghost use Rattle.std.specs.Prelude.{◌≡◌, ◌≤◌, ◌+◌, ◌^◌, ◌<◌};
ghost use Rattle.def_bytes.specs.Layout as places;
ghost use Rattle.def_bytes.specs.Layout.{IsRegion};

use strat_base::limits::BLOCK;

/// What an open gate reads as; any other byte is a closed one.
pub const OPEN: u8 = 0xa7;

/// The newest format: formats 1 and 2 are read, and what is published is written in this one.
pub const NEWEST_FORMAT: u16 = 2;

/// Bytes of the shortest manifest in format 1: that of a store without levels and with one version.
pub const MANIFEST_MIN: u32 = 29;

/// Bytes of the largest record: its gate, and a put of the longest key and the longest value.
pub const RECORD_MAX: u32 = 1288;

/// Bytes of the shortest manifest in a format: format 2 has a number and a mark more.
pub fn shortest_manifest(format: u16) -> u32
    ensures ok { result ≡ places.shortest_manifest format }
{
    if format == 1 { MANIFEST_MIN } else { 38 }
}

/// The blocks of a region for this many changes: so many of the largest records and a closed gate fit.
pub fn region_blocks(mem: u32) -> u32
    requires { mem ≤ 4096 }
    ensures ok { result ≡ places.region_blocks mem }
    ensures fits { result ≤ 1289 }
{
    (RECORD_MAX * mem + BLOCK as u32) / BLOCK as u32
}

/// The first block of a region.
pub fn region_first(mem: u32, region: u8) -> u32
    requires { IsRegion mem region }
    ensures ok { result ≡ places.region_first mem region }
    ensures fits { result ≤ 1291 }
{
    2 + u32::from(region) * region_blocks(mem)
}

/// The first byte of a region, where the gate of its first record stands.
pub fn region_at(mem: u32, region: u8) -> u64
    requires { IsRegion mem region }
    ensures ok { result ≡ places.region_at mem region }
    ensures fits { result < 2 ^ 23 }
{
    BLOCK as u64 * u64::from(region_first(mem, region))
}

/// The first block after both journal regions, where the manifest of a new store lies.
pub fn first_free(mem: u32) -> u32
    requires { mem ≤ 4096 }
    ensures ok { result ≡ places.first_free mem }
    ensures fits { result ≤ 2580 }
{
    region_first(mem, 1) + region_blocks(mem)
}

/// The numbers of the format, on which other programs rely.
pub fn the_layout_in_numbers()
    ensures ok { (places.open_flag ≡ 167) × (places.record_max ≡ 1288)
        × (places.newest_format ≡ 2) }
    ensures short { (places.shortest_manifest 1 ≡ 29) × (places.shortest_manifest 2 ≡ 38) }
    ensures first { (places.region_blocks 4 ≡ 2) × (places.region_blocks 4096 ≡ 1289) }
    ensures same { (places.region_at 4 0 ≡ 8192) × (places.region_at 4 1 ≡ 16384)
        × (places.first_free 4 ≡ 6) }
{}
