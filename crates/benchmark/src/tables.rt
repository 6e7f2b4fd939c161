//! The tables of topology files.

use crate::random::Random;
use crate::text::Text;

/// A link whose name has these two characters, with addresses from 0 to a last one.
pub fn put_link(text: &mut Text, link: u8, name: u64, last: u64) {
    text.put(
        b"[[link]]\nname = \"@@\"\nkind = \"byte\"\nfirst = 0\nlast = %\n",
        &[link as u64, name, last],
    );
}

/// A module of this kind, without ports; its name is a character, and perhaps a number.
pub fn put_module(text: &mut Text, random: &mut Random, name: &[u64], kind: &[u8], serial: u64) {
    text.put(b"[[module]]\nname = \"", &[]);
    let named: &[u8] = if name.len() == 1 { b"@" } else { b"@%" };
    text.put(named, name);
    text.put(b"\"\nkind = \"", &[]);
    text.put(kind, &[]);
    text.put(
        b"\"\nvendor = %\ndevice_type = %\nproduct = %\nmajor = %\nminor = %\nserial = %\n",
        &[
            random.among(1, 4000),
            random.among(1, 60),
            random.among(1, 9000),
            random.among(1, 100),
            random.among(1, 200),
            serial,
        ],
    );
    put_beginning(text, random);
}

// The product's name, and the clock, the ids and the numbers that a module begins with.
fn put_beginning(text: &mut Text, random: &mut Random) {
    text.put(
        b"product_name = \"@@@@ %\"\nclock = %\nfirst_id = %\nfirst_number = %\n",
        &[
            random.among(65, 26),
            random.among(97, 26),
            random.among(97, 26),
            random.among(97, 26),
            random.among(100, 900),
            random.below(1_000_000_000),
            beginning_of(random),
            beginning_of(random),
        ],
    );
}

// An incarnation in the high word, and a small count in the low one.
fn beginning_of(random: &mut Random) -> u64 {
    let incarnation = random.below(60_000).wrapping_mul(65_536);
    incarnation.wrapping_add(random.among(1, 2_000))
}

/// A port of the module above, on the link whose name has these two characters.
pub fn put_port(text: &mut Text, number: u64, link: u8, name: u64, at: u64) {
    text.put(
        b"[[module.port]]\nnumber = %\nlink = \"@@\"\naddress = \"$\"\n",
        &[number, link as u64, name, at],
    );
}

/// An assembly of the module above.
pub fn put_assembly(text: &mut Text, instance: u64, size: u64) {
    text.put(
        b"[[module.assembly]]\ninstance = %\nsize = %\n",
        &[instance, size],
    );
}
