// MPS Table 4-8, the names of buses.
ghost use Rattle.std.specs.Prelude.{◌≡◌};
ghost use Rattle.mps.specs.Buses.{is_bus_name};
ghost use Rattle.tables.specs.Quick.{pci_name, quick_name};

const NAMES: [[u8; 6]; 18] = [
    *b"CBUS  ", *b"CBUSII", *b"EISA  ", *b"FUTURE", *b"INTERN", *b"ISA   ", *b"MBI   ", *b"MBII  ",
    *b"MCA   ", *b"MPI   ", *b"MPSA  ", *b"NUBUS ", *b"PCI   ", *b"PCMCIA", *b"TC    ", *b"VL    ",
    *b"VME   ", *b"XPRESS",
];

// Whether some bytes are one of the names, its blanks with it.
#[tactic(auto, using(laws::proofs::Lists::any_done), unfolding(mps::specs::Buses::bus_names, mps::specs::Buses::is_bus_name, mps::specs::Words::text))]
pub fn is_bus_name(name: &[u8]) -> bool
    ensures { result ≡ is_bus_name name.now }
{
    for row in &NAMES {
        if slices::same(name, row) {
            return true;
        }
    }
    false
}

// "PCI   ", little endian.
const PCI: u64 = 0x202020494350;

// Whether a number is that of "PCI   ".
pub fn is_pci(name: u64) -> bool
    ensures { result ≡ pci_name name }
{
    name == PCI
}

// Whether a number is that of "PCI   " or "ISA   ". What is so is one of the names; what is not is looked up.
pub fn quick(name: u64) -> bool
    ensures { result ≡ quick_name name }
{
    (name == PCI) | (name == 0x202020415349)
}
