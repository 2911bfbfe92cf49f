// A command, and what it comes to (document 01, "The commands, checks in order").

// A command whose fields are right. Malformed is any other, and any code that is not listed.
#[derive(Clone, Copy)]
pub enum Parsed {
    Malformed,
    Inventory,
    Read {
        password: usize,
        bank: usize,
        pointer: usize,
        count: usize,
    },
    Write {
        password: usize,
        bank: usize,
        pointer: usize,
        count: usize,
    },
    Lock {
        password: usize,
        mask: usize,
        action: usize,
    },
    Kill {
        password: usize,
    },
}

// What a command comes to where nothing refuses it: what is answered and stored.
#[derive(Clone, Copy)]
pub enum Act {
    // The notification of an inventory.
    Notify,
    // A Read hands out the bytes from `at` on.
    Give {
        at: usize,
        length: usize,
    },
    // A Write stores its data bytes from `at` on.
    Store {
        at: usize,
    },
    // A Lock or a Kill, answered under `code`: the `count` bytes from `at` on become `value`, high byte first.
    Set {
        code: u8,
        at: usize,
        count: usize,
        value: usize,
    },
}
