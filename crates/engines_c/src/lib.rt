// The CRC engines for C and Rust: the functions of `engines` under names that a linker finds. A slice passes as a pointer and a length, an array as a
// pointer.
#![tactic(auto)]

ghost use Rattle.std.specs.Prelude.{◌≡◌, ◌-◌};
ghost use Rattle.crc.specs.Crc.{tag_crc, reader_crc};
ghost use Rattle.crc.specs.Tables.{near_table, far_table, table_crc};
ghost use Rattle.crc.specs.declared.Direction.TheVariants.{HighFirst, LowFirst};

// The tag's CRC bit by bit.
#[unsafe(no_mangle)]
pub extern "C" fn poldrisk_tag_crc_plain(bytes: &[u8]) -> u16
    ensures { result ≡ tag_crc bytes.now }
{
    engines::poldrisk_tag_crc_plain(bytes)
}

// The tag's CRC two bytes at a time by shifts, as the bench works it.
#[unsafe(no_mangle)]
pub extern "C" fn poldrisk_tag_crc_shifts(bytes: &[u8]) -> u16
    ensures { result ≡ tag_crc bytes.now }
{
    engines::poldrisk_tag_crc_shifts(bytes)
}

// The tag's CRC from tables that are copied for this call.
#[unsafe(no_mangle)]
pub extern "C" fn poldrisk_tag_crc_bound(bytes: &[u8]) -> u16
    ensures { result ≡ tag_crc bytes.now }
{
    engines::poldrisk_tag_crc_bound(bytes)
}

// The CRC of the reader of source document 003, likewise.
#[unsafe(no_mangle)]
pub extern "C" fn poldrisk_reader_crc_bound(bytes: &[u8]) -> u16
    ensures { result ≡ reader_crc bytes.now }
{
    engines::poldrisk_reader_crc_bound(bytes)
}

// The tables of the tag's polynomial, to be lent to the function below them.
#[unsafe(no_mangle)]
pub extern "C" fn poldrisk_tag_tables(near: &mut [u16; 256], far: &mut [u16; 256])
    ensures { (near.new ≡ near_table HighFirst) × (far.new ≡ far_table HighFirst) }
{
    engines::poldrisk_tag_tables(near, far)
}

// With those tables it is the tag's CRC.
#[unsafe(no_mangle)]
pub extern "C" fn poldrisk_tag_crc_lent(near: &[u16; 256], far: &[u16; 256], bytes: &[u8]) -> u16
    ensures { result ≡ 0xFFFF - table_crc HighFirst near.now far.now 0xFFFF bytes.now }
{
    engines::poldrisk_tag_crc_lent(near, far, bytes)
}

// The tables of the reader's polynomial, and what is looked up in them.
#[unsafe(no_mangle)]
pub extern "C" fn poldrisk_reader_tables(near: &mut [u16; 256], far: &mut [u16; 256])
    ensures { (near.new ≡ near_table LowFirst) × (far.new ≡ far_table LowFirst) }
{
    engines::poldrisk_reader_tables(near, far)
}

#[unsafe(no_mangle)]
pub extern "C" fn poldrisk_reader_crc_lent(near: &[u16; 256], far: &[u16; 256], bytes: &[u8]) -> u16
    ensures { result ≡ table_crc LowFirst near.now far.now 0xFFFF bytes.now }
{
    engines::poldrisk_reader_crc_lent(near, far, bytes)
}
