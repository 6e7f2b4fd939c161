//! The chassis that the program has when it is given no other.

/// A topology file: a scanner S, the bridges A and B behind it, and behind these the adapter E.
pub const CHASSIS: &str =
    r#"# A scanner S, the bridges A and B of a rack, and behind them the adapter E.

# The plant network.
[[link]]
name = "LAN"
kind = "byte"
first = 0x00
last = 0xFE

# The backplane of the rack: an address is a slot.
[[link]]
name = "RACK"
kind = "byte"
first = 0x00
last = 0x10

# The network of the machine behind the rack.
[[link]]
name = "SUB"
kind = "byte"
first = 0x00
last = 0x3F

# The scanner, which opens the connections.
[[module]]
name = "S"
kind = "plain"
vendor = 0x0101
device_type = 14
product = 9
major = 1
minor = 3
serial = 0x0A0B0C0D
product_name = "SC"
first_id = 0x11

[[module.port]]
number = 2
link = "LAN"
address = "01"

# The first bridge: from the plant network to the rack.
[[module]]
name = "A"
kind = "plain"
vendor = 0x0101
device_type = 12
product = 1
major = 1
minor = 3
serial = 0x00000A0A
product_name = "AR"
first_id = 0x21

[[module.port]]
number = 2
link = "LAN"
address = "05"

[[module.port]]
number = 1
link = "RACK"
address = "00"

# The second bridge: from the rack to the machine.
[[module]]
name = "B"
kind = "plain"
vendor = 0x0101
device_type = 12
product = 2
major = 1
minor = 3
serial = 0x00000B0B
product_name = "BR"
first_id = 0x31

[[module.port]]
number = 1
link = "RACK"
address = "03"

[[module.port]]
number = 2
link = "SUB"
address = "01"

# The adapter, at which connections end.
[[module]]
name = "E"
kind = "adapter"
vendor = 0x0101
device_type = 12
product = 3
major = 1
minor = 3
serial = 0x00000E0E
product_name = "EA"
first_id = 0x41

[[module.port]]
number = 2
link = "SUB"
address = "07"

# The configuration, of no bytes.
[[module.assembly]]
instance = 100
size = 0

# What it consumes.
[[module.assembly]]
instance = 101
size = 4

# What it produces.
[[module.assembly]]
instance = 102
size = 2

# A second output.
[[module.assembly]]
instance = 103
size = 4
"#;
