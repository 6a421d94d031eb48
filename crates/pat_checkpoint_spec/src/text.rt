// The text of a checkpoint, how it is read, and the first line of it that isn't. Definitions, no code.
