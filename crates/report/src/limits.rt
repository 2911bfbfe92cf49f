// What is tested of the program's files before a run, and the report on files that are not run.
ghost use Rattle.std.specs.Prelude.{◌≡◌};
ghost use Rattle.report.specs.Report.{too_long, files_of, notice_of};
ghost use Rattle.report.specs.Writing.{Told};

use text::writer::Writer;

// Why files are not run.
#[derive(Clone, Copy)]
pub enum Unfit {
    // One of them was opened and could not be read to its end.
    Unreadable,
    // One of them has more bytes than document 01 allows.
    TooLong,
}

// The length of the commands, and those of the tags' images.
pub fn too_long(commands: usize, sizes: &[u64]) -> bool
    ensures { result ≡ too_long commands sizes.now }
{
    32768 < commands || sizes.iter().any(|size| 2048 < *size)
}

pub fn judge(readable: bool, commands: usize, sizes: &[u64]) -> Result<(), Unfit>
    ensures { result ≡ files_of readable commands sizes.now }
{
    if !readable {
        return Err(Unfit::Unreadable);
    }
    if too_long(commands, sizes) {
        return Err(Unfit::TooLong);
    }
    Ok(())
}

fn line(unfit: Unfit) -> &'static [u8]
    ensures { result.now ≡ notice_of (Err unfit) }
{
    match unfit {
        Unfit::Unreadable => b"UNREADABLE\n",
        Unfit::TooLong => b"TOO LONG\n",
    }
}

// The whole report on files that are not run, at the start of the buffer. The result is how many bytes were written: none where the
// buffer has no room for them, and then nothing changes. Files that fit have none.
pub fn write_notice(files: Result<(), Unfit>, buffer: &mut [u8]) -> usize
    ensures { Told (notice_of files) buffer.old buffer.new result }
{
    let Err(unfit) = files else {
        return 0;
    };
    let mut writer = Writer { buffer, at: 0 };
    writer.put_text(line(unfit));
    writer.at
}
